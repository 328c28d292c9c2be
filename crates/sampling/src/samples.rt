/// A soft sample of one bit: lost on the way, known for certain, or measured. Of a measured one, positive or zero means bit 0.
#[derive(Clone, Copy)]
pub enum Sample {
    Lost,
    Known(bool),
    Measured(f32),
}

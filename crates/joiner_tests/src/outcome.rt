use joiner::JoinRefusal;

// What a join answers, and what its target of three zeros then holds.
#[derive(Clone, Copy)]
pub struct Outcome {
    pub pairs: Result<u32, JoinRefusal>,
    pub third: [u16; 3],
}

// The worked examples: both joiners at the ceiling 31, the selective one at the ceiling 8.
#[derive(Clone, Copy)]
pub struct Examples {
    pub full: Outcome,
    pub selective: Outcome,
    pub high: Outcome,
}

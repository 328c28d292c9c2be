use due::{FrameRefusal, Numbers};

// A frame that takes loads. Only `open` makes one.
#[derive(Drop)]
pub struct LoadingSlip {
    pub(crate) numbers: Numbers,
}

// A frame that makes rounds, with the rounds made. Only `start` makes one; `conclude` uses it up.
#[derive(Drop)]
pub struct RunningSlip {
    pub(crate) numbers: Numbers,
    pub(crate) made: u16,
}

// A refused start, with the slip that it was given.
#[derive(Drop)]
pub struct NotStarted {
    pub refusal: FrameRefusal,
    pub slip: LoadingSlip,
}

// A refused conclude, with the slip that it was given.
#[derive(Drop)]
pub struct NotConcluded {
    pub refusal: FrameRefusal,
    pub slip: RunningSlip,
}

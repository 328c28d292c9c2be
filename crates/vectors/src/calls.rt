// What a line asks for.
use crate::joining::Joining;
use sampling::{Sample, Settings};

#[derive(Drop)]
pub enum Call {
    Prime(u8),
    Binary(u8, u16),
    Tower(u8, u8),
    Sum(u8, u8),
    Product(u8, u8),
    Opposite(u8),
    Inverse(u8),
    Joiner(Joining),
    Join(Join),
    Sheet,
    Area { words: usize, fill: u16 },
    Sample(Sampling),
    OnCode(CodeCall),
}

// Calls on the code in use.
#[derive(Drop)]
pub enum CodeCall {
    Load { column: u16, values: Vec<u16> },
    Start,
    Read { column: u16, size: Option<usize> },
    OverField(FieldCall),
}

// Those that are made over the field in use.
#[derive(Drop)]
pub enum FieldCall {
    Open,
    Round,
    Conclude(Option<usize>),
    Encode(Coding),
    Extract(Coding),
}

#[derive(Drop)]
pub struct Join {
    pub ceiling: u16,
    pub left: Vec<u16>,
    pub right: Vec<u16>,
    pub size: Option<usize>,
}

#[derive(Drop)]
pub struct Sampling {
    pub settings: Settings,
    pub ceiling: u16,
    pub samples: Vec<Sample>,
    pub size: Option<usize>,
}

// What is encoded or extracted, and the sizes of the scratch and of the target.
#[derive(Drop)]
pub struct Coding {
    pub given: Vec<u8>,
    pub scratch: Option<usize>,
    pub size: Option<usize>,
}

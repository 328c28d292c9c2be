use crate::fault::Place;

// One field of a sheet by its kind, each with the bytes that stand in the sheet.
#[derive(Clone, Copy)]
pub enum Token<'a> {
    Letter(&'a [u8]),
    Number(&'a [u8]),
    Dash(&'a [u8]),
}

// A field and its place in the text.
#[derive(Clone, Copy)]
pub struct Part<'a> {
    pub token: Token<'a>,
    pub place: Place,
}

// The kinds of record, one letter each: C, E, K and Z.
#[derive(Clone, Copy)]
pub enum Kind {
    Header,
    Edge,
    Entry,
    End,
}

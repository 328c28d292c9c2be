// One line of the row table: the coefficient of a row's check at a column.
#[repr(C)]
#[derive(Clone, Copy, PartialEq, Eq, Debug)]
pub struct Edge {
    pub row: u16,
    pub column: u16,
    pub coefficient: u8,
}

// One line of the column table: a row that checks the column.
#[repr(C)]
#[derive(Clone, Copy, PartialEq, Eq, Debug)]
pub struct Entry {
    pub column: u16,
    pub row: u16,
}

// The numbers of a code: its order q, N columns, M rows, the ceiling C of costs and the limit L of rounds.
#[derive(Clone, Copy, PartialEq, Eq, Debug)]
pub struct Header {
    pub order: u16,
    pub columns: u16,
    pub rows: u16,
    pub ceiling: u16,
    pub limit: u16,
}

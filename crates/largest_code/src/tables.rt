// A code of the largest size: 256 columns, 128 rows, 1,024 edges, order 64.
use code::table::{Edge, Entry, Header};

pub const HEADER: Header = Header {
    order: 64,
    columns: 256,
    rows: 128,
    ceiling: 31,
    limit: 20,
};

// Row `r` has an edge in each block of 32 columns; the rows of a group of 32 turn from block to block, each group at its own pace.
pub fn fill_edges(edges: &mut [Edge]) {
    for (k, edge) in edges.iter_mut().enumerate() {
        let row = k / 8 % 128;
        let block = k % 8;
        let turn = (row / 32).wrapping_mul(block);
        *edge = Edge {
            row: row as u16,
            column: (32 * block + row.wrapping_add(turn) % 32) as u16,
            coefficient: (1 + (29 * row + 17 * block + row / 5) % 63) as u8,
        };
    }
}

pub fn fill_entries(entries: &mut [Entry]) {
    for (k, entry) in entries.iter_mut().enumerate() {
        let column = k / 4 % 256;
        let group = k % 4;
        let turn = group.wrapping_mul(column / 32);
        *entry = Entry {
            column: column as u16,
            row: (32 * group + (column % 32).wrapping_add(256).wrapping_sub(turn) % 32) as u16,
        };
    }
}

pub fn fill_symbols(symbols: &mut [u8]) {
    for (i, symbol) in symbols.iter_mut().enumerate() {
        *symbol = (i % 64) as u8;
    }
}

// Encodes and extracts with a code of the largest size, and says whether the symbols come back.
#![tactic(auto)]

use binary::Binary;
use code::code::Code;
use code::code::admit::admit;
use code::table::{Edge, Entry};
use encoder::{encode, extract};

mod tables;

const EDGE: Edge = Edge {
    row: 0,
    column: 0,
    coefficient: 0,
};

const ENTRY: Entry = Entry { column: 0, row: 0 };

// Whether the symbols come back; none if a call refuses.
fn comes_back<'x>(
    edges: &'x [Edge],
    entries: &'x [Entry],
    given: &[u8],
    scratch: &mut [u8],
    word: &mut [u8],
    symbols: &mut [u8],
) -> Option<bool> {
    let field = Binary::new(6, 67).ok()?;
    let mut code: Code<'x> = Code::builtin();
    admit(tables::HEADER, edges, entries, &mut code).ok()?;
    encode(&field, &code, given, scratch, word).ok()?;
    extract(&field, &code, word, scratch, symbols).ok()?;
    Some(*given == *symbols)
}

// Fills the tables and the symbols, and goes there and back.
fn filled(
    edges: &mut [Edge],
    entries: &mut [Entry],
    given: &mut [u8],
    scratch: &mut [u8],
    word: &mut [u8],
    symbols: &mut [u8],
) -> Option<bool> {
    tables::fill_edges(edges);
    tables::fill_entries(entries);
    tables::fill_symbols(given);
    comes_back(edges, entries, given, scratch, word, symbols)
}

fn main(rt: HostRuntime) {
    let mut edges = [EDGE; 1024];
    let mut entries = [ENTRY; 1024];
    let mut given = [0; 128];
    let mut scratch = [0; 32768];
    let mut word = [0; 256];
    let mut symbols = [0; 128];
    let back = filled(
        &mut edges,
        &mut entries,
        &mut given,
        &mut scratch,
        &mut word,
        &mut symbols,
    )
    .unwrap_or(false);
    let _ = println!(rt; "{back}");
}

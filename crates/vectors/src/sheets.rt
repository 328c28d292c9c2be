// A sheet among the lines.
use crate::lines::{content, take_line};
use crate::replies::Stop;
use code::code::Code;
use code::code::admit::admit;
use code::numbers::Numbers;
use code::table::{Edge, Entry, Header};
use sheet::fault::SheetFault;
use sheet::read::read;
use std::alloc::Global;
use std::io::BufRead;

// The tables of a code.
#[derive(Drop)]
pub struct Tables {
    header: Header,
    edges: Vec<Edge>,
    entries: Vec<Entry>,
}

impl Tables {
    // Reads a sheet's tables. The outer level says whether there was memory to read it with, the inner whether the sheet
    // is accepted: a refused sheet is a reply like an accepted one, and no stop.
    pub fn read(heap: Global, text: &[u8]) -> Result<Result<(Numbers, Tables), SheetFault>, Stop> {
        let edge = Edge {
            row: 0,
            column: 0,
            coefficient: 0,
        };
        let mut edges = vec![in heap; edge; 1024]?;
        let mut entries = vec![in heap; Entry { column: 0, row: 0 }; 1024]?;
        let verdict = read(text, edges.as_mut_slice(), entries.as_mut_slice());
        Ok(verdict.map(|numbers| {
            // An accepted sheet has as many entries as edges.
            edges.truncate(numbers.edges);
            entries.truncate(numbers.edges);
            let header = numbers.header();
            let tables = Tables {
                header,
                edges,
                entries,
            };
            (numbers, tables)
        }))
    }

    // Writes the code that the tables hold.
    pub fn admit_into<'a>(&'a self, code: &mut Code<'a>) -> Result<(), Stop> {
        let admitted = admit(
            self.header,
            self.edges.as_slice(),
            self.entries.as_slice(),
            code,
        );
        admitted.map_err(|_| Stop::Lacks)
    }
}

// Collects a sheet's lines as they stand, up to the line `Z` or the end of the input.
fn collect_lines<R: BufRead>(
    input: &mut R,
    line: &mut Vec<u8>,
    text: &mut Vec<u8>,
) -> std::io::Result<()> {
    // Stays (rule): a `while` over a stream cannot be proved to end, and without a `Wait` bound every loop must.
    for _ in 0..u64::MAX {
        if !take_line(input, line)? {
            break;
        }
        text.extend_from_slice(line.as_slice())?;
        if content(line.as_slice()) == b"Z".as_slice() {
            break;
        }
    }
    Ok(())
}

// Reads a sheet from the lines of the input.
pub fn take_sheet<R: BufRead>(
    heap: Global,
    input: &mut R,
) -> Result<Result<(Numbers, Tables), SheetFault>, Stop> {
    let mut line = Vec::new(heap);
    let mut text = Vec::new(heap);
    collect_lines(input, &mut line, &mut text).map_err(|_| Stop::Memory)?;
    Tables::read(heap, text.as_slice())
}

ghost use Rattle.std.specs.Prelude.{◌≡◌, ◌+◌, ◌^◌, ◌<◌, ◌≤◌, length, slice_set, take, drop, Ok, MatchResult};
ghost use Rattle.sheet.specs.declared.fault.SheetFault.TheVariants.{Ends, Full};
ghost use Rattle.sheet.specs.Pieces.{first};
ghost use Rattle.sheet.specs.Grammar.{Inverts};
ghost use Rattle.sheet.specs.Reading.{tables, reading, filled_of, answer as answer_of, judged, filled};

use crate::fault::{Place, SheetFault};
use crate::field::Line;
use crate::line::{Due, Record, header_line, record_line};
use crate::pieces::until;
use code::code::admit::judged;
pub use code::numbers::Numbers;
use code::table::{Edge, Entry, Header};

// The header of a whole sheet, and how many records it filled in.
// Stays (rule): the tables are lent by the caller, so their filled lengths are told beside them.
#[derive(Clone, Copy)]
struct Filled {
    header: Header,
    edges: usize,
    entries: usize,
}

// The end of the line that starts at a place; `Ends` if it has no line feed.
// Stays (plain): `until` finds it, as it finds the end of a field, and so answers the text's end where none is found.
fn line_end(text: &[u8], place: Place) -> Result<usize, SheetFault>
    requires { place.byte ≤ length text.now }
    ensures cases { MatchResult result (λ e. (e ≡ place.byte + length (first 10 (drop place.byte text.now))) × (e < length text.now)) (λ f. (f ≡ Ends place) × (length text.now ≤ place.byte + length (first 10 (drop place.byte text.now)))) }
{
    let at = place.byte;
    let end = at + until(&text[at..], b'\n');
    (end < text.len())
        .then_some(end)
        .ok_or(SheetFault::Ends(place))
}

// The start of the line below one that ends at a byte.
fn below(place: Place, end: usize) -> Place
    requires { (place.line + 1 < 2 ^ 64) × (end + 1 < 2 ^ 64) }
    ensures line { result.line ≡ place.line + 1 }
    ensures byte { result.byte ≡ end + 1 }
{
    Place {
        line: place.line + 1,
        byte: end + 1,
    }
}

// Puts the record of a line into a table at its first free place; `Full` if there is none.
// Stays (proof): with `get_mut` and `ok_or` for the slot, neither the table after it is written nor the one kept at a refusal
// was proved to be as the clause says.
fn put<T: Copy>(table: &mut [T], free: usize, item: T, place: Place) -> Result<(), SheetFault>
    ensures cases { MatchResult result (λ x. (free < length table.old) × (table.new ≡ slice_set table.old free item)) (λ f. (f ≡ Full place) × (length table.old ≤ free) × (table.new ≡ table.old)) }
{
    if free >= table.len() {
        return Err(SheetFault::Full(place));
    }
    table[free] = item;
    Ok(())
}

// Stays (rule): the text and both tables are lent by the caller, and go through these functions as they are lent.

// Fills the tables from the lines below the header.
fn fill_tables(
    text: &[u8],
    start: Place,
    header: Header,
    edges: &mut [Edge],
    entries: &mut [Entry],
) -> Result<Filled, SheetFault>
    requires inside { start.byte ≤ length text.now }
    requires few { start.line ≤ start.byte + 1 }
    requires small { header.order ≤ 64 }
    ensures answer { result ≡ filled_of (tables text.now header start (length edges.old) (length entries.old)) }
    ensures edges { edges.new ≡ filled (tables text.now header start (length edges.old) (length entries.old)).edges edges.old }
    ensures entries { entries.new ≡ filled (tables text.now header start (length edges.old) (length entries.old)).entries entries.old }
{
    let mut place = start;
    let mut due = Due::Edge;
    // Stays (plain): a line fills one table or the other, so neither count follows the lines, and each is taken where
    // its record is put.
    let mut w = 0;
    let mut k = 0;
    loop {
        let end = line_end(text, place)?;
        let at = place.byte;
        let next = below(place, end);
        let line = Line {
            bytes: &text[at..end],
            place,
        };
        match record_line(line, due, header)? {
            Record::Edge(edge) => {
                put(edges, w, edge, place)?;
                w += 1;
                due = Due::EdgeOrEntry;
            }
            Record::Entry(entry) => {
                put(entries, k, entry, place)?;
                k += 1;
                due = Due::EntryOrEnd;
            }
            Record::End => {
                if next.byte < text.len() {
                    return Err(SheetFault::Ends(next));
                }
                return Ok(Filled {
                    header,
                    edges: w,
                    entries: k,
                });
            }
        }
        place = next;
    }
}

// Fills the tables from a whole sheet.
fn fill(text: &[u8], edges: &mut [Edge], entries: &mut [Entry]) -> Result<Filled, SheetFault>
    ensures answer { result ≡ filled_of (reading (length edges.old) (length entries.old) text.now) }
    ensures edges { edges.new ≡ filled (reading (length edges.old) (length entries.old) text.now).edges edges.old }
    ensures entries { entries.new ≡ filled (reading (length edges.old) (length entries.old) text.now).entries entries.old }
{
    let place = Place { line: 1, byte: 0 };
    let end = line_end(text, place)?;
    let header = header_line(Line {
        bytes: &text[0..end],
        place,
    })?;
    let start = below(place, end);
    fill_tables(text, start, header, edges, entries)
}

// Admits the filled parts of the tables.
fn judge(whole: Filled, edges: &[Edge], entries: &[Entry]) -> Result<Numbers, SheetFault>
    requires edges { whole.edges ≤ length edges.now }
    requires entries { whole.entries ≤ length entries.now }
    ensures { result ≡ judged (Ok whole.header) (take whole.edges edges.now) (take whole.entries entries.now) }
{
    let edges = &edges[0..whole.edges];
    let entries = &entries[0..whole.entries];
    judged(whole.header, edges, entries)?;
    Ok(Numbers::new(whole.header, whole.edges))
}

// Reads a sheet into two lent tables and answers its code's numbers, or the first fault.
// The records before a fault stay in the tables; past them nothing changes.
pub fn read(text: &[u8], edges: &mut [Edge], entries: &mut [Entry]) -> Result<Numbers, SheetFault>
    ensures answer { result ≡ answer_of (reading (length edges.old) (length entries.old) text.now) }
    ensures edges { edges.new ≡ filled (reading (length edges.old) (length entries.old) text.now).edges edges.old }
    ensures entries { entries.new ≡ filled (reading (length edges.old) (length entries.old) text.now).entries entries.old }
    ensures law { Inverts }
{
    let whole = fill(text, edges, entries)?;
    judge(whole, edges, entries)
}

ghost use Rattle.std.specs.Prelude.{◌≡◌};
ghost use Rattle.code.specs.Admission.{admission, first_fault};
ghost use Rattle.code.specs.Laws.{GrantedByTheRules, RefusedAtTheFirst};
ghost use Rattle.code.specs.Views.{laid, left, small, verdict, view};

use crate::code::Code;
use crate::degrees::degree_place;
use crate::fault::CodeFault;
use crate::order::order_place;
use crate::pairs::pair_place;
use crate::ranges::range_place;
use crate::table::{Edge, Entry, Header};

static SMALL_EDGES: [Edge; 2] = [
    Edge {
        row: 0,
        column: 0,
        coefficient: 1,
    },
    Edge {
        row: 0,
        column: 1,
        coefficient: 1,
    },
];

static SMALL_ENTRIES: [Entry; 2] = [Entry { column: 0, row: 0 }, Entry { column: 1, row: 0 }];

impl<'a> Code<'a> {
    // The smallest code: one row over two columns, of order 2. It is lent to `admit` to be written.
    pub fn builtin() -> Code<'a>
        ensures answer { view result ≡ small }
    {
        let header = Header {
            order: 2,
            columns: 2,
            rows: 1,
            ceiling: 1,
            limit: 1,
        };
        Code {
            header,
            edges: &SMALL_EDGES,
            entries: &SMALL_ENTRIES,
        }
    }
}

// Stays (plain): a header and two tables go through these functions side by side, since a struct of them that is not yet
// admitted would be `Code` again without its rules.

// The first of ranges, order, degrees and pairs that finds a fault tells it.
fn first_fault(header: Header, edges: &[Edge], entries: &[Entry]) -> Option<CodeFault>
    ensures { result ≡ first_fault header edges.now entries.now }
{
    range_place(header, edges, entries)
        .map(CodeFault::OutOfRange)
        .or_else(|| order_place(edges, entries).map(CodeFault::NotRising))
        .or_else(|| degree_place(header, edges).map(CodeFault::Degree))
        .or_else(|| pair_place(edges, entries).map(CodeFault::Unmatched))
}

// The fault that refuses a code, or none.
pub fn fault_of(header: Header, edges: &[Edge], entries: &[Entry]) -> Option<CodeFault>
    ensures answer { result ≡ admission header edges.now entries.now }
{
    first_fault(header, edges, entries)
}

// The answer of admitting: granted exactly if the code keeps the rules, refused exactly with its first fault.
pub fn judged(header: Header, edges: &[Edge], entries: &[Entry]) -> Result<(), CodeFault>
    ensures answer { result ≡ verdict (admission header edges.now entries.now) }
    ensures law { GrantedByTheRules header edges.now entries.now result }
    ensures place { RefusedAtTheFirst header edges.now entries.now result }
{
    fault_of(header, edges, entries).map_or(Ok(()), Err)
}

// Writes the code whole, or answers why it is refused and leaves it as it was.
pub fn admit<'a>(
    header: Header,
    edges: &'a [Edge],
    entries: &'a [Entry],
    code: &mut Code<'a>,
) -> Result<(), CodeFault>
    ensures answer { result ≡ verdict (admission header edges.now entries.now) }
    ensures code { view code.new ≡ left (verdict (admission header edges.now entries.now)) (laid header edges.now entries.now) (view code.old) }
    ensures law { GrantedByTheRules header edges.now entries.now result }
    ensures place { RefusedAtTheFirst header edges.now entries.now result }
{
    judged(header, edges, entries)?;
    *code = Code {
        header,
        edges,
        entries,
    };
    Ok(())
}

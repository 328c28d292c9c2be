ghost use Rattle.std.specs.Prelude.{◌≡◌, ◌<◌, length, IfSome};
ghost use Rattle.code.specs.Admission.{first_bad, header_fits, range_place};

use crate::record::Record;
use crate::table::{Edge, Entry, Header};

// The longest table that a code may lend.
const LONGEST: usize = 1024;

fn header_fits(h: Header) -> bool
    ensures { result ≡ header_fits h }
{
    (2..=64).contains(&h.order)
        && (2..=256).contains(&h.columns)
        && (1..=128).contains(&h.rows)
        && h.rows < h.columns
        && (1..=1023).contains(&h.ceiling)
        && (1..=200).contains(&h.limit)
}

fn first_unfit<T: Record>(h: Header, items: &[T]) -> Option<usize>
    ensures answer { result ≡ first_bad (T.fit h) items.now }
    ensures within { IfSome result (λ k. k < length items.now) }
{
    items.iter().position(|x| !x.fits(h))
}

// The first number out of range: place 0 for the header and the lengths, then edges from 0, entries from W on.
pub(crate) fn range_place(h: Header, edges: &[Edge], entries: &[Entry]) -> Option<usize>
    ensures { result ≡ range_place h edges.now entries.now }
{
    if !header_fits(h) || edges.len() > LONGEST || entries.len() > LONGEST {
        return Some(0);
    }
    first_unfit(h, edges).or_else(|| first_unfit(h, entries).map(|k| edges.len() + k))
}

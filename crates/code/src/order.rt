ghost use Rattle.std.specs.Prelude.{◌≡◌, ◌<◌, ◌≤◌, length, IfSome};
ghost use Rattle.code.specs.Admission.{after, first_fall, order_place};

use crate::record::Record;
use crate::table::{Edge, Entry};

// Whether the line at k comes after the one before it.
fn follows<T: Record>(items: &[T], k: usize) -> bool
    requires { (1 ≤ k) × (k < length items.now) }
    ensures { result ≡ after T.before items.now k }
{
    items[k - 1].is_before(items[k])
}

// The later of the first two neighbours that do not rise.
fn first_falling<T: Record>(items: &[T]) -> Option<usize>
    ensures answer { result ≡ first_fall T.before items.now }
    ensures within { IfSome result (λ k. k < length items.now) }
{
    (1..items.len()).find(|&k| !follows(items, k))
}

// The first place where a table does not rise: edges from 0, entries from W on.
pub(crate) fn order_place(edges: &[Edge], entries: &[Entry]) -> Option<usize>
    ensures { result ≡ order_place edges.now entries.now }
{
    first_falling(edges).or_else(|| first_falling(entries).map(|k| edges.len() + k))
}

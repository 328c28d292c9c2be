ghost use Rattle.std.specs.Prelude.{◌≡◌};
ghost use Rattle.code.specs.Admission.{any, first_bad, has_edge, has_entry, lone_edge, pair_place, same_pair};

use crate::table::{Edge, Entry};

fn same_pair(e: Edge, x: Entry) -> bool
    ensures { result ≡ same_pair e x }
{
    (e.row, e.column) == (x.row, x.column)
}

// Stays (plain): the two tables hold types of their own, and a shared form would have to name a line's pair through
// a trait, at more length than these two lines.
// `position` and not `any`, whose loop takes six instructions a line where this takes five.
fn has_edge(edges: &[Edge], x: Entry) -> bool
    ensures { result ≡ has_edge edges.now x }
{
    edges.iter().position(|e| same_pair(*e, x)).is_some()
}

fn has_entry(entries: &[Entry], e: Edge) -> bool
    ensures { result ≡ has_entry entries.now e }
{
    entries.iter().position(|x| same_pair(e, *x)).is_some()
}

fn first_lone_entry(edges: &[Edge], entries: &[Entry]) -> Option<usize>
    ensures { result ≡ first_bad (has_edge edges.now) entries.now }
{
    entries.iter().position(|x| !has_edge(edges, *x))
}

fn some_lone_edge(edges: &[Edge], entries: &[Entry]) -> bool
    ensures { result ≡ any (lone_edge entries.now) edges.now }
{
    edges.iter().any(|e| !has_entry(entries, *e))
}

// The first entry without its edge, or else the number of entries where an edge lacks its entry.
pub(crate) fn pair_place(edges: &[Edge], entries: &[Entry]) -> Option<usize>
    ensures { result ≡ pair_place edges.now entries.now }
{
    first_lone_entry(edges, entries).or_else(|| some_lone_edge(edges, entries).then_some(
        entries.len(),
    ))
}

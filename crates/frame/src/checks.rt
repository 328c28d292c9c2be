ghost use Rattle.std.specs.Prelude.{◌≡◌, ℕ, ◌<◌, ◌≤◌, length};
ghost use Rattle.frame.specs.Columns.{row_at};
ghost use Rattle.frame.specs.Words.{sum_to, failing_to, Summable};

use crate::codes::{plus, times};
use crate::rows::row_end;
use code::table::Edge;
use field::Field;

// A row's coefficients times the symbols of its columns, summed: the row's edges stand from `first` to `end`.
// Stays (plain): the encoder sums a row's edges too, but picks them out of all edges, where here they stand one after another.
fn row_sum<F: Field>(field: &F, edges: &[Edge], word: &[u8], r: u16, first: usize, end: usize) -> u8
    requires range { (first ≤ end) × (end ≤ length edges.now) }
    requires summable { Summable (F.Field.meaning field.now) edges.now word.now }
    requires lower { (x : ℕ) → x < first → row_at edges.now x < r }
    requires same { (x : ℕ) → first ≤ x → x < end → row_at edges.now x ≡ r }
    ensures sum { result ≡ sum_to (F.Field.meaning field.now) edges.now word.now r end }
{
    let mut sum = 0;
    for edge in &edges[first..end] {
        let term = times(field, edge.coefficient, word[edge.column as usize]);
        sum = plus(field, term, sum);
    }
    sum
}

// How many of the m rows do not sum to 0 with the word's symbols.
pub fn failing<F: Field>(field: &F, edges: &[Edge], word: &[u8], m: u16) -> u16
    requires summable { Summable (F.Field.meaning field.now) edges.now word.now }
    ensures { result ≡ failing_to (F.Field.meaning field.now) edges.now word.now m }
{
    // Stays (plain): `chunk_by` would go over the rows that have an edge, not over the m rows by number, as the count is told; so where
    // each row begins is counted by hand.
    let mut first = 0;
    let mut failing = 0;
    for r in 0..m {
        let end = row_end(edges, first, r);
        let sum = row_sum(field, edges, word, r, first, end);
        failing += u16::from(sum != 0);
        first = end;
    }
    failing
}

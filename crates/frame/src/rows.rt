ghost use Rattle.std.specs.Prelude.{◌≡◌, ℕ, suc, ◌+◌, ◌<◌, ◌≤◌, length, ◌≢◌, not, ◌==◌, position};
ghost use Rattle.frame.specs.Joins.{HasScratch};
ghost use Rattle.frame.specs.Row.{Invertible, LowBlocks};
ghost use Rattle.frame.specs.AllRows.{starts, rows_pairs, RowsTo};
ghost use Rattle.frame.specs.Columns.{row_at};

use crate::step::Joins;
use code::table::Edge;
use field::Field;
use joiner::Joiner;

// Where the first edge stands that is of another row than r.
fn leaves_row(edges: &[Edge], r: u16) -> Option<usize>
    ensures { result ≡ position (λ edge. not (edge.row == r)) edges.now }
{
    edges.iter().position(|edge| edge.row != r)
}

// The first position from `first` on whose edge is of another row than r.
pub fn row_end(edges: &[Edge], first: usize, r: u16) -> usize
    requires { first ≤ length edges.now }
    ensures within { (first ≤ result) × (result ≤ length edges.now) }
    ensures same { (x : ℕ) → first ≤ x → x < result → row_at edges.now x ≡ r }
    ensures next { result < length edges.now → row_at edges.now result ≢ r }
{
    leaves_row(&edges[first..], r).map_or(edges.len(), |n| first + n)
}

impl<'a, F: Field, J: Joiner> Joins<'a, F, J> {
    // Writes the from-check costs of all edges, row by row.
    pub fn rows(&self, edges: &[Edge], area: &mut [u16], to: usize, from: usize, m: u16) -> u32
        requires count { m ≤ 128 }
        requires room { (HasScratch (F.Field.meaning self.now.field.now) self.now.scratch area.old) × ((to + length edges.now ≤ from) × (from + length edges.now ≤ self.now.scratch)) }
        requires rising { (x y : ℕ) → x ≤ y → y < length edges.now → row_at edges.now x ≤ row_at edges.now y }
        requires rows { (x : ℕ) → x < length edges.now → row_at edges.now x < m }
        requires wide { (r : ℕ) → r < m → (starts edges.now r + 2 ≤ starts edges.now (suc r)) × (starts edges.now (suc r) ≤ starts edges.now r + 16) }
        requires coefficients { Invertible (F.Field.meaning self.now.field.now) edges.now }
        requires low { LowBlocks (F.Field.meaning self.now.field.now).order self.now.ceiling to (length edges.now) area.old }
        ensures pairs { result ≡ rows_pairs (J.Joiner.pairs self.now.joiner.now) (F.Field.meaning self.now.field.now) self.now.ceiling edges.now to area.old m }
        ensures area { RowsTo (F.Field.meaning self.now.field.now) edges.now to from self.now.scratch m area.old area.new }
    {
        // Stays (plain): `chunk_by` would give the rows' edges, and beside it the place where each row begins, which tells its blocks of
        // costs, would still be counted by hand.
        let mut first = 0;
        let mut pairs = 0;
        for r in 0..m {
            let end = row_end(edges, first, r);
            pairs += self.row(&edges[first..end], area, to + first, from + first);
            first = end;
        }
        pairs
    }
}

ghost use Rattle.std.specs.Prelude.{◌≡◌, ◌+◌, ◌-◌, ◌≤◌, length};
ghost use Rattle.frame.specs.Joins.{HasScratch};
ghost use Rattle.frame.specs.Row.{Invertible, LowBlocks, coefficient_at, row_vectors, RowDone};
ghost use Rattle.tree.specs.Rows.{row_pairs};

use crate::codes::inverted;
use crate::step::{Joins, turn};
use code::table::Edge;
use field::Field;
use joiner::Joiner;

// Stays (plain): a row's edges, and where its costs stand, go through these methods side by side. A struct of them would be taken
// apart in each, since `spread` reads one of the two places, `around` writes at the other, and the sweeps need neither; and the area is
// lent mutably at each step, so that what it holds is said anew of each area.
// Stays (plain): that a sweep's pairs are at most 65536 is said of each, as a number of its own; a type for it would only be added up.
impl<'a, F: Field, J: Joiner> Joins<'a, F, J> {
    // Writes the from-check costs of a row's edges, to the blocks from `from` on, out of their to-check costs in the blocks from `to`
    // on, by way of the 36 scratch blocks.
    pub fn row(&self, edges: &[Edge], area: &mut [u16], to: usize, from: usize) -> u32
        requires room { (HasScratch (F.Field.meaning self.now.field.now) self.now.scratch area.old) × ((to + length edges.now ≤ self.now.scratch) × (from + length edges.now ≤ self.now.scratch)) }
        requires edges { (2 ≤ length edges.now) × (length edges.now ≤ 16) }
        requires coefficients { Invertible (F.Field.meaning self.now.field.now) edges.now }
        requires low { LowBlocks (F.Field.meaning self.now.field.now).order self.now.ceiling to (length edges.now) area.old }
        ensures pairs { result ≡ row_pairs (J.Joiner.pairs self.now.joiner.now) (F.Field.meaning self.now.field.now) self.now.ceiling (row_vectors (F.Field.meaning self.now.field.now) (coefficient_at edges.now) to area.old) (length edges.now - 1) }
        ensures few { result ≤ 196608 }
        ensures area { RowDone (F.Field.meaning self.now.field.now) (coefficient_at edges.now) to from self.now.scratch (length edges.now - 1) area.old area.new }
    {
        let last = edges.len() - 1;
        self.spread(edges, area, to);
        let k = inverted(self.field, edges[last].coefficient);
        turn(self.field, k, area, to + last, self.scratch + 16);
        let backs = self.backward(area, last);
        let forths = self.forward(area, last);
        let arounds = self.around(edges, area, from);
        backs + forths + arounds
    }
}

ghost use Rattle.std.specs.Prelude.{◌+◌, ◌≤◌, length};
ghost use Rattle.frame.specs.Blocks.{Filled};
ghost use Rattle.frame.specs.Joins.{HasScratch};
ghost use Rattle.frame.specs.Row.{Invertible, coefficient_at, row_vectors};

use crate::codes::inverted;
use crate::step::{Joins, turn};
use code::table::Edge;
use field::Field;
use joiner::Joiner;

impl<'a, F: Field, J: Joiner> Joins<'a, F, J> {
    // Puts the edges' costs, in the blocks from `to` on, at their products into the scratch blocks.
    pub fn spread(&self, edges: &[Edge], area: &mut [u16], to: usize)
        requires room { (HasScratch (F.Field.meaning self.now.field.now) self.now.scratch area.old) × ((to + length edges.now ≤ self.now.scratch) × (length edges.now ≤ 16)) }
        requires coefficients { Invertible (F.Field.meaning self.now.field.now) edges.now }
        ensures { Filled (F.Field.meaning self.now.field.now).order self.now.scratch (length edges.now) (row_vectors (F.Field.meaning self.now.field.now) (coefficient_at edges.now) to area.old) area.old area.new }
    {
        for (i, edge) in edges.iter().enumerate() {
            let k = inverted(self.field, edge.coefficient);
            turn(self.field, k, area, to + i, self.scratch + i);
        }
    }
}

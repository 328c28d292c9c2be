ghost use Rattle.std.specs.Prelude.{◌≡◌, ℕ, ◌+◌, ◌-◌, ◌<◌, ◌≤◌, length};
ghost use Rattle.frame.specs.Blocks.{block, «from_on», Wrote, Filled};
ghost use Rattle.frame.specs.Joins.{HasScratch};
ghost use Rattle.frame.specs.Vectors.{minus};
ghost use Rattle.tree.specs.Rows.{gathered, around_at, around_pair, around_pairs};
ghost use Rattle.joiner.specs.Costs.{Low};
ghost use Rattle.frame.specs.Row.{coefficient_at, read_at};

use crate::codes::negated;
use crate::step::{Joins, turn};
use code::table::Edge;
use field::Field;
use joiner::Joiner;

impl<'a, F: Field, J: Joiner> Joins<'a, F, J> {
    // Writes to block k what edge i reads, from the joins of those before it, in the scratch blocks, and of those after it, in those
    // from the 16th on, the last first.
    fn around_one(&self, h: u8, area: &mut [u16], last: usize, i: usize, k: usize) -> u32
        requires room { (HasScratch (F.Field.meaning self.now.field.now) self.now.scratch area.old) × (k < self.now.scratch) }
        requires last { (1 ≤ last) × ((last < 16) × (i ≤ last)) }
        requires h { h < (F.Field.meaning self.now.field.now).order }
        requires low { (x : ℕ) → x < last → Low self.now.ceiling (block (F.Field.meaning self.now.field.now).order (self.now.scratch + x) area.old) × Low self.now.ceiling (block (F.Field.meaning self.now.field.now).order (self.now.scratch + 16 + x) area.old) }
        ensures pairs { result ≡ around_pair (J.Joiner.pairs self.now.joiner.now) (F.Field.meaning self.now.field.now) self.now.ceiling («from_on» (F.Field.meaning self.now.field.now).order self.now.scratch area.old) («from_on» (F.Field.meaning self.now.field.now).order (self.now.scratch + 16) area.old) last i }
        ensures area { Wrote (F.Field.meaning self.now.field.now).order k (gathered (F.Field.meaning self.now.field.now) (minus (F.Field.meaning self.now.field.now) h) (around_at (F.Field.meaning self.now.field.now) («from_on» (F.Field.meaning self.now.field.now).order self.now.scratch area.old) («from_on» (F.Field.meaning self.now.field.now).order (self.now.scratch + 16) area.old) last i)) area.old area.new }
    {
        let s = self.scratch;
        let o = negated(self.field, h);
        if i == 0 {
            turn(self.field, o, area, s + 15 + last, k);
            return 0;
        }
        if i == last {
            turn(self.field, o, area, s + last - 1, k);
            return 0;
        }
        let pairs = self.step(area, s + i - 1, s + 15 + last - i, k);
        turn(self.field, o, area, k, k);
        pairs
    }

    // Writes what each edge of a row reads to the blocks from `from` on.
    pub fn around(&self, edges: &[Edge], area: &mut [u16], from: usize) -> u32
        requires room { (HasScratch (F.Field.meaning self.now.field.now) self.now.scratch area.old) × (from + length edges.now ≤ self.now.scratch) }
        requires edges { (2 ≤ length edges.now) × ((length edges.now ≤ 16) × (((i : ℕ) → i < length edges.now → coefficient_at edges.now i < (F.Field.meaning self.now.field.now).order))) }
        requires low { (x : ℕ) → x + 1 < length edges.now → Low self.now.ceiling (block (F.Field.meaning self.now.field.now).order (self.now.scratch + x) area.old) × Low self.now.ceiling (block (F.Field.meaning self.now.field.now).order (self.now.scratch + 16 + x) area.old) }
        ensures pairs { result ≡ around_pairs (J.Joiner.pairs self.now.joiner.now) (F.Field.meaning self.now.field.now) self.now.ceiling («from_on» (F.Field.meaning self.now.field.now).order self.now.scratch area.old) («from_on» (F.Field.meaning self.now.field.now).order (self.now.scratch + 16) area.old) (length edges.now - 1) (length edges.now) }
        ensures few { result ≤ 65536 }
        ensures area { Filled (F.Field.meaning self.now.field.now).order from (length edges.now) (read_at (F.Field.meaning self.now.field.now) (coefficient_at edges.now) (around_at (F.Field.meaning self.now.field.now) («from_on» (F.Field.meaning self.now.field.now).order self.now.scratch area.old) («from_on» (F.Field.meaning self.now.field.now).order (self.now.scratch + 16) area.old) (length edges.now - 1))) area.old area.new }
    {
        let mut pairs = 0;
        for (i, edge) in edges.iter().enumerate() {
            pairs += self.around_one(edge.coefficient, area, edges.len() - 1, i, from + i);
        }
        pairs
    }
}

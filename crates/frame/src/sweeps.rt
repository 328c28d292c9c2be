ghost use Rattle.std.specs.Prelude.{◌≡◌, ℕ, ◌+◌, ◌-◌, ◌<◌, ◌≤◌};
ghost use Rattle.frame.specs.Blocks.{block, «from_on», Filled};
ghost use Rattle.frame.specs.Joins.{HasScratch};
ghost use Rattle.joiner.specs.Costs.{Low};
ghost use Rattle.tree.specs.Rows.{back, forth, back_pairs, forth_pairs};

use crate::step::Joins;
use field::Field;
use joiner::Joiner;

// Stays (plain): the counters of these loops name blocks of one lent area, two to read and one to write at each turn, and no iterator
// lends these together.
impl<'a, F: Field, J: Joiner> Joins<'a, F, J> {
    // Joins the vectors in the scratch blocks, from the last one down to the second, into those from the 16th on.
    pub fn backward(&self, area: &mut [u16], last: usize) -> u32
        requires room { HasScratch (F.Field.meaning self.now.field.now) self.now.scratch area.old }
        requires last { (1 ≤ last) × (last < 16) }
        requires begun { block (F.Field.meaning self.now.field.now).order (self.now.scratch + 16) area.old ≡ block (F.Field.meaning self.now.field.now).order (self.now.scratch + last) area.old }
        requires low { (i : ℕ) → i ≤ last → Low self.now.ceiling (block (F.Field.meaning self.now.field.now).order (self.now.scratch + i) area.old) }
        ensures pairs { result ≡ back_pairs (J.Joiner.pairs self.now.joiner.now) (F.Field.meaning self.now.field.now) self.now.ceiling («from_on» (F.Field.meaning self.now.field.now).order self.now.scratch area.old) last (last - 1) }
        ensures few { result ≤ 65536 }
        ensures area { Filled (F.Field.meaning self.now.field.now).order (self.now.scratch + 16) last (back (F.Field.meaning self.now.field.now) («from_on» (F.Field.meaning self.now.field.now).order self.now.scratch area.old) last) area.old area.new }
    {
        let s = self.scratch;
        let mut pairs = 0;
        for m in 0..last - 1 {
            pairs += self.step(area, s + last - 1 - m, s + 16 + m, s + 17 + m);
        }
        pairs
    }

    // Joins the vectors in the scratch blocks, from the first one up to the last but one, in their place.
    pub fn forward(&self, area: &mut [u16], last: usize) -> u32
        requires room { HasScratch (F.Field.meaning self.now.field.now) self.now.scratch area.old }
        requires last { (1 ≤ last) × (last < 16) }
        requires low { (i : ℕ) → i ≤ last → Low self.now.ceiling (block (F.Field.meaning self.now.field.now).order (self.now.scratch + i) area.old) }
        ensures pairs { result ≡ forth_pairs (J.Joiner.pairs self.now.joiner.now) (F.Field.meaning self.now.field.now) self.now.ceiling («from_on» (F.Field.meaning self.now.field.now).order self.now.scratch area.old) (last - 1) }
        ensures few { result ≤ 65536 }
        ensures area { Filled (F.Field.meaning self.now.field.now).order self.now.scratch last (forth (F.Field.meaning self.now.field.now) («from_on» (F.Field.meaning self.now.field.now).order self.now.scratch area.old)) area.old area.new }
    {
        let s = self.scratch;
        let mut pairs = 0;
        for i in 0..last - 1 {
            pairs += self.step(area, s + i, s + i + 1, s + i + 1);
        }
        pairs
    }
}

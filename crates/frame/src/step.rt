ghost use Rattle.std.specs.Prelude.{◌≡◌, ◌<◌, ◌≤◌};
ghost use Rattle.frame.specs.Blocks.{block, blocks};
ghost use Rattle.joiner.specs.Costs.{Low};
ghost use Rattle.frame.specs.Joins.{turned, stepped};

use crate::blocks::{block_at, copied, gather, put_back};
use field::Field;
use joiner::Joiner;

// Block j becomes what block i holds at the products with k.
pub fn turn<F: Field>(field: &F, k: u8, area: &mut [u16], i: usize, j: usize)
    requires k { k < (F.Field.meaning field.now).order }
    requires i { i < blocks (F.Field.meaning field.now).order area.old }
    requires j { j < blocks (F.Field.meaning field.now).order area.old }
    ensures { area.new ≡ turned (F.Field.meaning field.now) k i j area.old }
{
    let q = field.order() as usize;
    let mut out = [0u16; 64];
    let out = &mut out[0..q];
    gather(field, k, block_at(area, q, i), out);
    put_back(area, q, j, out);
}

// What the joins of a round have in common: the field, the joiner, the ceiling that no cost exceeds, and where the 36 scratch
// blocks begin.
#[derive(Drop)]
pub struct Joins<'a, F, J> {
    pub field: &'a F,
    pub joiner: &'a J,
    pub ceiling: u16,
    pub scratch: usize,
    ghost fits: { (1 ≤ ceiling) × ((ceiling ≤ 1023) × (scratch ≤ 4096)) },
}

impl<'a, F: Field, J: Joiner> Joins<'a, F, J> {
    // Block k becomes the join of blocks i and j.
    pub fn step(&self, area: &mut [u16], i: usize, j: usize, k: usize) -> u32
        requires i { i < blocks (F.Field.meaning self.now.field.now).order area.old }
        requires j { j < blocks (F.Field.meaning self.now.field.now).order area.old }
        requires k { k < blocks (F.Field.meaning self.now.field.now).order area.old }
        requires left { Low self.now.ceiling (block (F.Field.meaning self.now.field.now).order i area.old) }
        requires right { Low self.now.ceiling (block (F.Field.meaning self.now.field.now).order j area.old) }
        ensures pairs { result ≡ J.Joiner.pairs self.now.joiner.now (F.Field.meaning self.now.field.now).order self.now.ceiling (block (F.Field.meaning self.now.field.now).order i area.old) (block (F.Field.meaning self.now.field.now).order j area.old) }
        ensures area { area.new ≡ stepped (F.Field.meaning self.now.field.now) i j k area.old }
    {
        let q = self.field.order() as usize;
        let left = copied(area, q, i);
        let right = copied(area, q, j);
        let mut out = [0u16; 64];
        let out = &mut out[0..q];
        let pairs = self
            .joiner
            .join(self.field, self.ceiling, &left[0..q], &right[0..q], out)
            .unwrap();
        put_back(area, q, k, out);
        pairs
    }
}

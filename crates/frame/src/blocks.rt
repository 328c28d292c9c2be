ghost use Rattle.std.specs.Prelude.{◌≡◌, ◌+◌, ◌*◌, ◌<◌, ◌≤◌, length, take};
ghost use Rattle.frame.specs.Blocks.{block, put};
ghost use Rattle.tree.specs.Rows.{gathered};

use crate::codes::times;
use field::Field;

// Stays (plain): the three places that make these read them from a header or from a slip's numbers; one function for them would have to
// require of its caller the bounds that are asked of whoever makes them, and tell both fields again.
// The sizes of a code: q words in a block, and n columns.
#[derive(Clone, Copy)]
pub struct Sizes {
    pub q: usize,
    pub n: usize,
    ghost fits: { (1 ≤ q) × ((q ≤ 64) × (n ≤ 256)) },
}

// Stays (plain): a struct that holds the lent words beside q would ask of each function that is given it, and of each loop, two more
// clauses: that q and the words that it lends are still the same.
// Stays (rule): a join's vectors are copied out into local arrays, since what is made of them is written to the same area.
// Stays (rule): memory is fixed, so here and in other files a local array has the largest size and is cut to that of the code.
// Block j, at the front of an array.
pub fn copied(area: &[u16], q: usize, j: usize) -> [u16; 64]
    requires { (q ≤ 64) × (j * q + q ≤ length area.now) }
    ensures { take q result ≡ block q j area.now }
{
    let mut v = [0u16; 64];
    v[0..q].copy_from_slice(&area[j * q..j * q + q]);
    v
}

// Block j, lent.
pub fn block_at(area: &[u16], q: usize, j: usize) -> &[u16]
    requires { j * q + q ≤ length area.now }
    ensures is { result.now ≡ block q j area.now }
    ensures long { length result.now ≡ q }
{
    &area[j * q..j * q + q]
}

// Writes v as block j.
pub fn put_back(area: &mut [u16], q: usize, j: usize, v: &[u16])
    requires { (length v.now ≡ q) × (j * q + q ≤ length area.old) }
    ensures { area.new ≡ put q j v.now area.old }
{
    area[j * q..j * q + q].copy_from_slice(v);
}

// Writes to `out`, at each code, what v holds at the product with k.
pub fn gather<F: Field>(field: &F, k: u8, v: &[u16], out: &mut [u16])
    requires { (k < (F.Field.meaning field.now).order) × ((length v.now ≡ (F.Field.meaning field.now).order) × (length out.old ≡ (F.Field.meaning field.now).order)) }
    ensures { out.new ≡ gathered (F.Field.meaning field.now) k v.now }
{
    for (c, word) in out.iter_mut().enumerate() {
        *word = v[times(field, k, c as u8) as usize];
    }
}

ghost use Rattle.std.specs.Prelude.{◌≡◌, ℕ, ◌+◌, ◌*◌, ◌<◌, ◌≤◌, length, nat_eq, slice_index};
ghost use Rattle.tree.specs.Over.{count};
ghost use Rattle.frame.specs.Blocks.{block, blocks, put};
ghost use Rattle.frame.specs.Row.{LowBlocks};
ghost use Rattle.frame.specs.Columns.{added, word, entry_at, Rising, HasAt, SummedTo};

use crate::blocks::{Sizes, block_at, copied, put_back};
use crate::find::edge_at;
use code::table::{Edge, Entry};

// Adds each number of v to that of `sums`.
fn add(sums: &mut [u16], v: &[u16])
    requires long { length v.now ≡ length sums.old }
    requires fits { (a : ℕ) → a < length sums.old → slice_index sums.old a + slice_index v.now a < 65536 }
    ensures { sums.new ≡ added (length sums.old) sums.old v.now }
{
    // Stays (proof): over `sums.iter_mut().zip(v)` the goal that the sums are those wanted stays open, since nothing ties the words that
    // stand after the loop to those that were written in it.
    for (a, x) in v.iter().enumerate() {
        sums[a] += *x;
    }
}

// Adds block i to block j.
fn add_block(area: &mut [u16], sizes: Sizes, i: usize, j: usize)
    requires i { i < blocks sizes.q area.old }
    requires j { j < blocks sizes.q area.old }
    requires fits { (a : ℕ) → a < sizes.q → word sizes.q area.old j a + word sizes.q area.old i a < 65536 }
    ensures { area.new ≡ put sizes.q j (added sizes.q (block sizes.q j area.old) (block sizes.q i area.old)) area.old }
{
    let q = sizes.q;
    let mut out = copied(area, q, j);
    let out = &mut out[0..q];
    add(out, block_at(area, q, i));
    put_back(area, q, j, out);
}

// Adds the from-check block of each entry's edge to the block of its column's distances.
pub fn sums(edges: &[Edge], entries: &[Entry], area: &mut [u16], sizes: Sizes)
    requires room { (sizes.n + sizes.n + length edges.now + length edges.now ≤ blocks sizes.q area.old) × (length edges.now ≤ 1024) }
    requires rising { Rising edges.now }
    requires entries { (k : ℕ) → k < length entries.now → ((entry_at entries.now k).column < sizes.n) × HasAt edges.now (entry_at entries.now k).row (entry_at entries.now k).column }
    requires few { (c : ℕ) → c < sizes.n → count (length entries.now) (λ k. nat_eq (entry_at entries.now k).column c) ≤ 8 }
    requires low { (LowBlocks sizes.q 1023 sizes.n sizes.n area.old) × LowBlocks sizes.q 1023 (sizes.n + sizes.n + length edges.now) (length edges.now) area.old }
    ensures { SummedTo sizes.q sizes.n sizes.n (sizes.n + sizes.n + length edges.now) (length entries.now) edges.now entries.now area.old area.new }
{
    let from = sizes.n + sizes.n + edges.len();
    for entry in entries {
        let e = edge_at(edges, entry.row, entry.column);
        add_block(area, sizes, from + e, sizes.n + entry.column as usize);
    }
}

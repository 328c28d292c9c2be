ghost use Rattle.std.specs.Prelude.{◌≡◌, ℕ, ◌+◌, ◌*◌, ◌<◌, ◌≤◌, length, replicate};
ghost use Rattle.frame.specs.Blocks.{block, blocks, put, Filled};
ghost use Rattle.frame.specs.Columns.{column_at, lowered};

use crate::blocks::{Sizes, block_at, put_back};
use crate::words::reduce;
use code::table::Edge;
use cost::without;

// Writes v less w, less the least of these, lowered to the ceiling.
fn lower(v: &[u16], w: &[u16], ceiling: u16, out: &mut [u16])
    requires { (1 ≤ length out.old) × ((length v.now ≡ length out.old) × (length w.now ≡ length out.old)) }
    ensures { out.new ≡ lowered (length out.old) ceiling v.now w.now }
{
    // Stays (proof): over `out.iter_mut().zip(v)`, as in `add` of `sums`, nothing ties the words after the loop to those written in it.
    for (a, x) in v.iter().enumerate() {
        out[a] = without(*x, w[a]);
    }
    reduce(out, ceiling);
}

// Stays (plain): here and in `sums` each block is asked for by its own number, below the blocks of the area as it is at that call. A
// number that is known to be in range would have to name the area, which is lent mutably from call to call.
// Block k becomes what `lower` makes of blocks i and j.
fn lower_block(area: &mut [u16], sizes: Sizes, i: usize, j: usize, k: usize, ceiling: u16)
    requires i { i < blocks sizes.q area.old }
    requires j { j < blocks sizes.q area.old }
    requires k { k < blocks sizes.q area.old }
    ensures { area.new ≡ put sizes.q k (lowered sizes.q ceiling (block sizes.q i area.old) (block sizes.q j area.old)) area.old }
{
    let q = sizes.q;
    let mut out = [0u16; 64];
    let out = &mut out[0..q];
    lower(block_at(area, q, i), block_at(area, q, j), ceiling, out);
    put_back(area, q, k, out);
}

// Writes each edge's to-check costs, from the sums of its column.
pub fn costs(edges: &[Edge], ceiling: u16, area: &mut [u16], sizes: Sizes)
    requires room { (sizes.n + sizes.n + length edges.now + length edges.now ≤ blocks sizes.q area.old) × (length edges.now ≤ 1024) }
    requires edges { (x : ℕ) → x < length edges.now → column_at edges.now x < sizes.n }
    ensures { Filled sizes.q (sizes.n + sizes.n) (length edges.now) (λ x. lowered sizes.q ceiling (block sizes.q (sizes.n + column_at edges.now x) area.old) (block sizes.q (sizes.n + sizes.n + length edges.now + x) area.old)) area.old area.new }
{
    let to = sizes.n + sizes.n;
    let from = to + edges.len();
    for (e, edge) in edges.iter().enumerate() {
        lower_block(
            area,
            sizes,
            sizes.n + edge.column as usize,
            from + e,
            to + e,
            ceiling,
        );
    }
}

// Copies block i to block j.
pub fn copy_block(area: &mut [u16], sizes: Sizes, i: usize, j: usize)
    requires i { i < blocks sizes.q area.old }
    requires j { j < blocks sizes.q area.old }
    ensures { area.new ≡ put sizes.q j (block sizes.q i area.old) area.old }
{
    let q = sizes.q;
    area.copy_within(i * q..i * q + q, j * q);
}

// Copies the n first blocks to the n blocks after them.
pub fn begin(area: &mut [u16], sizes: Sizes)
    requires { sizes.n + sizes.n ≤ blocks sizes.q area.old }
    ensures { Filled sizes.q sizes.n sizes.n (λ c. block sizes.q c area.old) area.old area.new }
{
    let words = sizes.n * sizes.q;
    area.copy_within(..words, words);
}

// Block j becomes itself less its least word.
fn reduce_block(area: &mut [u16], sizes: Sizes, j: usize)
    requires j { j < blocks sizes.q area.old }
    ensures { area.new ≡ put sizes.q j (lowered sizes.q 65535 (block sizes.q j area.old) (replicate sizes.q 0)) area.old }
{
    let q = sizes.q;
    reduce(&mut area[j * q..j * q + q], u16::MAX);
}

// Lessens each of the n blocks from n on by its least word.
pub fn settle(area: &mut [u16], sizes: Sizes)
    requires { sizes.n + sizes.n ≤ blocks sizes.q area.old }
    ensures { Filled sizes.q sizes.n sizes.n (λ c. lowered sizes.q 65535 (block sizes.q (sizes.n + c) area.old) (replicate sizes.q 0)) area.old area.new }
{
    // Stays (proof): over `chunks_exact_mut`, nothing but the number of words is known once the loop has ended, so that no block of
    // the area can be told then.
    for c in 0..sizes.n {
        reduce_block(area, sizes, sizes.n + c);
    }
}

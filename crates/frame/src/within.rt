ghost use Rattle.std.specs.Prelude.{◌≡◌, ◌+◌, ◌*◌, ◌<◌, ◌≤◌, length, nat_le, slice_index};
ghost use Rattle.tree.specs.Over.{every};
ghost use Rattle.frame.specs.Words.{low_blocks};

use crate::blocks::block_at;
use cost::within;

// Whether no word of block j, one of the first m, exceeds the ceiling.
fn block_within(area: &[u16], q: usize, j: usize, m: usize, ceiling: u16) -> bool
    requires q { (q ≤ 64) × ((j < m) × (m ≤ 8192)) }
    requires room { m * q ≤ length area.now }
    ensures { result ≡ every q (λ a. nat_le (slice_index area.now (j * q + a)) ceiling) }
{
    within(ceiling, block_at(area, q, j))
}

// Whether no word of the n blocks from s on exceeds the ceiling; the first block that has one ends the search.
pub fn blocks_within(area: &[u16], q: usize, s: usize, n: usize, ceiling: u16) -> bool
    requires q { (q ≤ 64) × ((s ≤ 4096) × (n ≤ 4096)) }
    requires room { (s + n) * q ≤ length area.now }
    ensures { result ≡ low_blocks q s n ceiling area.now }
{
    (s..s + n).all(|j| block_within(area, q, j, s + n, ceiling))
}

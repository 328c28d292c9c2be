ghost use Rattle.std.specs.Prelude.{◌≡◌, pred, ◌+◌, ◌*◌, ◌<◌, ◌≤◌, length, slice_index};
ghost use Rattle.tree.specs.Over.{lowest_to};
ghost use Rattle.tree.specs.Rows.{tabled};
ghost use Rattle.frame.specs.Words.{symbol_at};

use crate::blocks::{Sizes, block_at};
use cost::nearer;

// The lowest code of least distance.
pub fn lowest(distances: &[u16]) -> u8
    requires { (1 ≤ length distances.now) × (length distances.now ≤ 64) }
    ensures is { result ≡ lowest_to (pred (length distances.now)) (λ a. slice_index distances.now a) }
    ensures code { result < length distances.now }
{
    // Stays (plain): a fold would carry each code with its distance as a pair, from which the code would be taken at the end.
    let mut best = 0;
    for (a, distance) in distances.iter().enumerate() {
        best = nearer(best, distances[best], a, *distance);
    }
    best as u8
}

// Writes the decided symbol of each column.
pub fn decide(area: &[u16], sizes: Sizes, word: &mut [u8])
    requires room { ((sizes.n + sizes.n) * sizes.q ≤ length area.now) × (length word.old ≡ sizes.n) }
    ensures { word.new ≡ tabled sizes.n (symbol_at sizes.q sizes.n area.now) }
{
    for (c, symbol) in word.iter_mut().enumerate() {
        *symbol = lowest(block_at(area, sizes.q, sizes.n + c));
    }
}

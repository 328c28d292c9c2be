ghost use Rattle.std.specs.Prelude.{◌≡◌, ◌*◌, ◌≤◌, false};
ghost use Rattle.field.specs.Grids.{grid, solutions};
ghost use Rattle.tower.specs.Towers.{has_root, pair_sum, pair_product};
ghost use Rattle.tower.specs.Copies.{tables_of};

use crate::base::pairs::Pairs;

mod answers;
mod make;
mod tables;

pub use make::make_tower;

// A tower on copied tables of a base of order r: code l + r × h means the pair l + h·y.
// Its own tables stand beside them, 64 bytes a row, so that no answer divides or searches.
// Stays (plain): each table is one list, as `grid` defines it; with an array of rows every fact of it would speak of a list of lists.
#[derive(Clone, Copy)]
pub struct Tower {
    pairs: Pairs,
    q: u8,
    sums: [u8; 4096],
    products: [u8; 4096],
    opposites: [u8; 64],
    inverses: [u8; 64],
    ghost square: { q ≡ pairs.base.r * pairs.base.r },
    ghost small: { q ≤ 64 },
    ghost rootless: { has_root (tables_of pairs.base) pairs.u pairs.v ≡ false },
    ghost summed: { sums ≡ grid 64 q (pair_sum (tables_of pairs.base)) },
    ghost multiplied: { products ≡ grid 64 q (pair_product (tables_of pairs.base) pairs.u pairs.v) },
    ghost opposed: { opposites ≡ solutions q (pair_sum (tables_of pairs.base)) 0 },
    ghost inverted: { inverses ≡ solutions q (pair_product (tables_of pairs.base) pairs.u pairs.v) 1 },
}

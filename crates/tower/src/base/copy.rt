ghost use Rattle.std.specs.Prelude.{◌≡◌, ◌≤◌, false};
ghost use Rattle.field.specs.Grids.{grid};
ghost use Rattle.tower.specs.Towers.{bits, has_root};
ghost use Rattle.tower.specs.Copies.{tables_of};

use super::Base;
use field::{Field, fill};

// The copied tables of a field of order 8 at most.
pub(crate) fn copy<F: Field>(field: &F) -> Base
    requires { (F.Field.meaning field.now).order ≤ 8 }
    ensures order { result.r ≡ (F.Field.meaning field.now).order }
    ensures sums { result.sums ≡ grid 8 (F.Field.meaning field.now).order (F.Field.meaning field.now).sum }
    ensures products { result.products ≡ grid 8 (F.Field.meaning field.now).order (F.Field.meaning field.now).product }
{
    let r = field.order();
    let mut sums = [0; 64];
    fill(&mut sums, |k| field.sum((k / 8) as u8, (k % 8) as u8));
    let mut products = [0; 64];
    fill(&mut products, |k| {
        field.product((k / 8) as u8, (k % 8) as u8)
    });
    Base { r, sums, products }
}

// The tables of the field of order 2, where y·y = y + 1 has no root.
pub(crate) fn two() -> Base
    ensures order { result.r ≡ 2 }
    ensures sums { result.sums ≡ grid 8 2 bits.sum }
    ensures products { result.products ≡ grid 8 2 bits.product }
    ensures rootless { has_root (tables_of result) 1 1 ≡ false }
{
    let mut sums = [0; 64];
    sums[1] = 1;
    sums[8] = 1;
    let mut products = [0; 64];
    products[9] = 1;
    Base {
        r: 2,
        sums,
        products,
    }
}

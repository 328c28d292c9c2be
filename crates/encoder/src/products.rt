// The products of all codes in one table, so that a row is added without a product of its own.
ghost use Rattle.std.specs.Prelude.{◌≡◌, ℕ, ◌<◌, length, slice_index};
ghost use Rattle.encoder.specs.Bytes.{Products};

use crate::codes;
use crate::elimination::Elimination;
use field::{Field, fill};

// Writes the product of any two codes.
pub(crate) fn multiply_all<F: Field>(field: &F, products: &mut [u8; 4096])
    ensures { Products (F.Field.meaning field.now) products.new }
{
    let q = field.order() as usize;
    for a in 0..q {
        fill(&mut products[a * q..a * q + q], |b| {
            field.product(a as u8, b as u8)
        });
    }
}

impl<'f, F: Field> Elimination<'f, F> {
    // The products of `a` with each code, from the table.
    pub(crate) fn multiples(&self, a: u8) -> &[u8]
        requires { a < (F.Field.meaning self.now.field.now).order }
        ensures { (b : ℕ) → b < (F.Field.meaning self.now.field.now).order → (b < length result.now) × (slice_index result.now b ≡ (F.Field.meaning self.now.field.now).product a b) }
    {
        &self.products[a as usize * self.field.order() as usize..]
    }

    // The product of two codes.
    pub(crate) fn product(&self, a: u8, b: u8) -> u8
        requires left { a < (F.Field.meaning self.now.field.now).order }
        requires right { b < (F.Field.meaning self.now.field.now).order }
        ensures is { result ≡ (F.Field.meaning self.now.field.now).product a b }
        ensures code { result < (F.Field.meaning self.now.field.now).order }
    {
        self.multiples(a)[b as usize]
    }

    // The opposite of `entry` over `pivot`, from the inverse of the pivot: that multiple of the pivot takes the entry away.
    pub(crate) fn cancelling(&self, entry: u8, inverse: u8) -> u8
        requires left { entry < (F.Field.meaning self.now.field.now).order }
        requires right { inverse < (F.Field.meaning self.now.field.now).order }
        ensures is { (F.Field.meaning self.now.field.now).sum ((F.Field.meaning self.now.field.now).product entry inverse) result ≡ 0 }
        ensures code { result < (F.Field.meaning self.now.field.now).order }
    {
        codes::opposite_of(self.field, self.product(entry, inverse))
    }
}

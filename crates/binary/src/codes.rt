ghost use Rattle.std.specs.Prelude.{◌≡◌, ◌^◌, ◌≤◌, true};
ghost use Rattle.field.specs.Tables.{inverse_of};
ghost use Rattle.field.specs.Grids.{grid, solutions};
ghost use Rattle.binary.specs.Fields.{is_binary, binary_tables, product_by};
ghost use Rattle.binary.specs.Laws.{binary_laws};

use field::Field;

mod inverses;
mod make;
mod products;

// A binary field of order 2^p: bit i of a code is the coefficient of power i, the sum is exclusive or,
// and the product is reduced by an irreducible polynomial of degree p, written the same way.
// Products and inverses stand in tables, 64 bytes a row, since they are asked for in innermost loops.
// Stays (plain): each table is one list, as `grid` defines it; with an array of rows every fact of it would speak of a list of lists.
#[derive(Clone, Copy)]
pub struct Binary {
    p: u8,
    polynomial: u8,
    q: u8,
    products: [u8; 4096],
    inverses: [u8; 64],
    ghost admitted: { is_binary p polynomial ≡ true },
    ghost sized: { q ≡ 2 ^ p },
    ghost small: { q ≤ 64 },
    ghost multiplied: { products ≡ grid 64 q (product_by p polynomial) },
    ghost inverted: { inverses ≡ solutions q (product_by p polynomial) 1 },
}

impl Field for Binary {
    ghost meaning = { λ f. binary_tables f.p f.polynomial };

    ghost lawful = { λ f. binary_laws f.p f.polynomial f.admitted };

    fn order(&self) -> u8 {
        self.q
    }

    fn sum(&self, a: u8, b: u8) -> Option<u8> {
        let q = self.order();
        (a < q && b < q).then_some(a ^ b)
    }

    #[tactic(auto, using(crate::proofs::Whole::product_held))]
    fn product(&self, a: u8, b: u8) -> Option<u8> {
        let q = self.order();
        (a < q && b < q).then(|| self.products[a as usize * 64 + b as usize])
    }

    // In these fields each code is its own opposite.
    #[tactic(auto, using(field::proofs::Unique::least_out, crate::proofs::Whole::own_opposite))]
    fn opposite(&self, a: u8) -> Option<u8> {
        (a < self.order()).then_some(a)
    }

    #[tactic(auto, using(crate::proofs::Whole::no_inverse, crate::proofs::Whole::inverse_held))]
    fn inverse(&self, a: u8) -> Option<u8> {
        (a > 0 && a < self.order()).then(|| self.inverses[a as usize])
    }
}

#![tactic(auto)]

ghost use Rattle.std.specs.Prelude.{◌≡◌};
ghost use Rattle.field.specs.Refusals.{number_of};
ghost use Rattle.field.specs.Tables.{Tables, Lawful, sum_of, product_of, opposite_of, inverse_of};

mod pairs;
mod tables;

pub use pairs::{are_inverse, are_opposite};
pub use tables::fill;

// A finite field over the codes 0 to q − 1. Its meaning is the order q and two tables, and every implementation shows their laws.
// Each answer comes from the tables: `None` if a code given is not below q, and for the inverse of 0.
pub trait Field {
    ghost meaning: { Self → Tables };

    // The order q, from 2 to 64.
    fn order(&self) -> u8
        ensures { result ≡ (meaning self.now).order };

    // The sum of two codes.
    fn sum(&self, a: u8, b: u8) -> Option<u8>
        ensures { result ≡ sum_of (meaning self.now) a b };

    // The product of two codes.
    fn product(&self, a: u8, b: u8) -> Option<u8>
        ensures { result ≡ product_of (meaning self.now) a b };

    // The one code whose sum with `a` is 0.
    fn opposite(&self, a: u8) -> Option<u8>
        ensures { result ≡ opposite_of (meaning self.now) a };

    // The one code whose product with `a` is 1; 0 has none.
    fn inverse(&self, a: u8) -> Option<u8>
        ensures { result ≡ inverse_of (meaning self.now) a }
    {
        (0..self.order()).find(|b| self.product(a, *b) == Some(1))
    }

    ghost lawful: { (f : Self) → Lawful (meaning f) };
}

// Why no field is made; `number_of` of the specs gives each case its number.
#[derive(Clone, Copy, PartialEq, Eq, Debug)]
pub enum FieldRefusal {
    Order = 1,
    NotPrime = 2,
    Degree = 3,
    Reducible = 4,
    NotCode = 5,
    Root = 6,
}

impl FieldRefusal {
    // The number by which a report names the refusal.
    pub fn number(self) -> u8
        ensures answer { result ≡ number_of self }
    {
        self as u8
    }
}

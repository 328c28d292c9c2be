ghost use Rattle.std.specs.Prelude.{◌≡◌, ◌^◌, ◌<◌, Some};
ghost use Rattle.field.specs.Tables.{inverse_of};
ghost use Rattle.binary.specs.Fields.{binary_tables};

use crate::polynomial::divide;
use crate::rule::Rule;

impl Rule {
    // The inverse of the code `a`, not 0, in at most p turns: the polynomial divided by a rest leaves one of lower degree.
    pub(crate) fn inverted(&self, a: u8) -> u8
        requires some { 0 < a }
        requires code { a < 2 ^ self.now.p }
        ensures { Some result ≡ inverse_of (binary_tables self.now.p self.now.polynomial) a }
    {
        let mut rest = a;
        let mut inverse = 1;
        while rest > 1 {
            let division = divide(self.polynomial, rest);
            inverse = self.times(inverse, division.quotient);
            rest = division.rest;
        }
        inverse
    }
}

ghost use Rattle.std.specs.Prelude.{◌≡◌, ◌<◌, true};
ghost use Rattle.binary.specs.Polynomials.{has_degree, reducible, Divided};

// What a division of polynomials gives.
#[derive(Clone, Copy)]
pub(crate) struct Division {
    pub quotient: u8,
    pub rest: u8,
}

// The quotient and the rest of `x` by `d`, which is not 0. The rest has a lower degree than `d`.
pub(crate) fn divide(x: u8, d: u8) -> Division
    requires { 0 < d }
    ensures { Divided x d result.quotient result.rest }
{
    let degree = 7 - d.leading_zeros();
    let mut quotient: u8 = 0;
    let mut rest = x;
    // Stays (plain): the turn's power shifts the divisor and marks the quotient, and a fold would carry both results in a tuple.
    for i in (0..8 - degree).rev() {
        if rest >> (degree + i) == 1 {
            rest ^= d << i;
            quotient ^= 1 << i;
        }
    }
    Division { quotient, rest }
}

// Whether `m`, of degree `p`, is a product of two polynomials of lower degree.
// One of the two has at most half the degree, so that it is enough to divide by those.
pub(crate) fn splits(p: u8, m: u8) -> bool
    requires { (p < 7) × (has_degree m p ≡ true) }
    ensures { result ≡ reducible p m }
{
    (2..2 << (p >> 1)).any(|d| divide(m, d).rest == 0)
}

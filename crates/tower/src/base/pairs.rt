ghost use Rattle.std.specs.Prelude.{◌≡◌, ◌*◌, ◌<◌};
ghost use Rattle.field.specs.Tables.{at_both};
ghost use Rattle.tower.specs.Towers.{low_of, high_of, pair_sum, pair_product};
ghost use Rattle.tower.specs.Copies.{tables_of};

use super::Base;

// The pairs l + h·y over a base, where y·y = u·y + v.
#[derive(Clone, Copy)]
pub(crate) struct Pairs {
    pub(crate) base: Base,
    pub(crate) u: u8,
    pub(crate) v: u8,
    ghost codes: { (u < base.r) × (v < base.r) },
}

impl Pairs {
    // Stays (plain): the two parts are two formulas, each over the parts l, h and m, k of the two factors.
    // The low part of (l + h·y)·(m + k·y).
    fn low(&self, l: u8, h: u8, m: u8, k: u8) -> u8
        requires { (l < self.now.base.r) × ((h < self.now.base.r) × ((m < self.now.base.r) × (k < self.now.base.r))) }
        ensures answer { result ≡ low_of (tables_of self.now.base) self.now.v l h m k }
        ensures code { result < self.now.base.r }
    {
        let base = &self.base;
        base.sum(base.product(l, m), base.product(self.v, base.product(h, k)))
    }

    // Its high part.
    fn high(&self, l: u8, h: u8, m: u8, k: u8) -> u8
        requires { (l < self.now.base.r) × ((h < self.now.base.r) × ((m < self.now.base.r) × (k < self.now.base.r))) }
        ensures answer { result ≡ high_of (tables_of self.now.base) self.now.u l h m k }
        ensures code { result < self.now.base.r }
    {
        let base = &self.base;
        let cross = base.sum(base.product(l, k), base.product(h, m));
        base.sum(cross, base.product(self.u, base.product(h, k)))
    }

    // The sum of two pairs, by their codes l + r × h.
    pub(crate) fn sum(&self, a: u8, b: u8) -> Option<u8>
        ensures { result ≡ at_both (self.now.base.r * self.now.base.r) (pair_sum (tables_of self.now.base)) a b }
    {
        let r = self.base.r;
        (a < r * r && b < r * r).then(|| self.base.sum(a % r, b % r)
            + r * self.base.sum(a / r, b / r))
    }

    // Their product.
    pub(crate) fn product(&self, a: u8, b: u8) -> Option<u8>
        ensures { result ≡ at_both (self.now.base.r * self.now.base.r) (pair_product (tables_of self.now.base) self.now.u self.now.v) a b }
    {
        let r = self.base.r;
        (a < r * r && b < r * r).then(|| self.low(a % r, a / r, b % r, b / r)
            + r * self.high(a % r, a / r, b % r, b / r))
    }
}

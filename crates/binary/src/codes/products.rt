ghost use Rattle.std.specs.Prelude.{◌≡◌, ◌^◌, ◌<◌};
ghost use Rattle.binary.specs.Fields.{doubled_by, product_by};

use crate::rule::Rule;

// Products stand in innermost loops: a turn has no branch, and whole words spare the narrowing of bytes.
impl Rule {
    // The code `a` shifted by one power, and reduced if that reaches the power p.
    // With and without the polynomial, just one number lacks the power p, and it is the smaller.
    fn doubled(&self, a: u32) -> u32
        requires { a < 64 }
        ensures { result ≡ doubled_by self.now.polynomial a }
    {
        let twice = a << 1;
        twice.min(twice ^ self.polynomial as u32)
    }

    // The product of two codes, in p turns: `a` shifted by i is added for each power i of `b`.
    pub(crate) fn times(&self, a: u8, b: u8) -> u8
        requires left { a < 2 ^ self.now.p }
        requires right { b < 2 ^ self.now.p }
        ensures { result ≡ product_by self.now.p self.now.polynomial a b }
    {
        let powers = b as u32;
        let mut product = 0;
        let mut shifted = a as u32;
        // Stays (plain): the turn's power picks a bit, and a fold would carry the sum and the shifted code in a tuple.
        for i in 0..self.p {
            if (powers >> i) & 1 == 1 {
                product ^= shifted;
            }
            shifted = self.doubled(shifted);
        }
        product as u8
    }
}

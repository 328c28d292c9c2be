ghost use Rattle.std.specs.Prelude.{◌≡◌, ◌^◌, true};
ghost use Rattle.field.specs.Tables.{product_of, inverse_of};
ghost use Rattle.binary.specs.Fields.{is_binary, binary_tables};

// How a binary field of order 2^p multiplies: bit i of a code is the coefficient of power i,
// and the product is reduced by an irreducible polynomial of degree p, written the same way.
#[derive(Clone, Copy)]
pub(crate) struct Rule {
    pub(crate) p: u8,
    pub(crate) polynomial: u8,
    pub(crate) q: u8,
    ghost admitted: { is_binary p polynomial ≡ true },
    ghost sized: { q ≡ 2 ^ p },
}

// Answers by turns, none by a search over the codes: a product takes p turns, an inverse at most p divisions.
impl Rule {
    pub(crate) fn product(&self, a: u8, b: u8) -> Option<u8>
        ensures { result ≡ product_of (binary_tables self.now.p self.now.polynomial) a b }
    {
        (a < self.q && b < self.q).then(|| self.times(a, b))
    }

    #[tactic(auto, using(crate::proofs::Whole::no_inverse))]
    pub(crate) fn inverse(&self, a: u8) -> Option<u8>
        ensures { result ≡ inverse_of (binary_tables self.now.p self.now.polynomial) a }
    {
        (a > 0 && a < self.q).then(|| self.inverted(a))
    }
}

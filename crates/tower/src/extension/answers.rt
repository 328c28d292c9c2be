ghost use Rattle.std.specs.Prelude.{◌≡◌};
ghost use Rattle.field.specs.Tables.{at_both};
ghost use Rattle.field.specs.Grids.{entry};
ghost use Rattle.tower.specs.Towers.{tower_tables};
ghost use Rattle.tower.specs.Copies.{tables_of};
ghost use Rattle.tower.specs.Whole.{tower_lawful};

use super::Tower;
use field::Field;

impl Tower {
    // What one of the tower's tables holds for two codes: one read.
    fn held(&self, table: &[u8; 4096], a: u8, b: u8) -> Option<u8>
        ensures { result ≡ at_both self.now.q (entry 64 table.now) a b }
    {
        (a < self.q && b < self.q).then(|| table[a as usize * 64 + b as usize])
    }
}

impl Field for Tower {
    ghost meaning = { λ f. tower_tables (tables_of f.pairs.base) f.pairs.u f.pairs.v };

    ghost lawful = { λ f. tower_lawful f };

    fn order(&self) -> u8 {
        self.q
    }

    #[tactic(auto, using(crate::proofs::Held::sums_held))]
    fn sum(&self, a: u8, b: u8) -> Option<u8> {
        self.held(&self.sums, a, b)
    }

    #[tactic(auto, using(crate::proofs::Held::products_held))]
    fn product(&self, a: u8, b: u8) -> Option<u8> {
        self.held(&self.products, a, b)
    }

    #[tactic(auto, using(crate::proofs::Held::no_opposite, crate::proofs::Held::opposite_held))]
    fn opposite(&self, a: u8) -> Option<u8> {
        (a < self.q).then(|| self.opposites[a as usize])
    }

    #[tactic(auto, using(crate::proofs::Held::no_inverse, crate::proofs::Held::inverse_held))]
    fn inverse(&self, a: u8) -> Option<u8> {
        (a > 0 && a < self.q).then(|| self.inverses[a as usize])
    }
}

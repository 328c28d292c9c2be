ghost use Rattle.std.specs.Prelude.{◌≡◌, ◌<◌};
ghost use Rattle.tower.specs.Towers.{is_root, has_root};
ghost use Rattle.tower.specs.Copies.{tables_of};

use super::pairs::Pairs;

impl Pairs {
    fn is_root(&self, x: u8) -> bool
        requires { x < self.now.base.r }
        ensures { result ≡ is_root (tables_of self.now.base) self.now.u self.now.v x }
    {
        let base = &self.base;
        base.product(x, x) == base.sum(base.product(self.u, x), self.v)
    }

    // Whether t·t = u·t + v for some code t of the base.
    pub(crate) fn has_root(&self) -> bool
        ensures { result ≡ has_root (tables_of self.now.base) self.now.u self.now.v }
    {
        (0..self.base.r).any(|x| self.is_root(x))
    }
}

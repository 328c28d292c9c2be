ghost use Rattle.std.specs.Prelude.{◌≡◌, ◌<◌, ◌≤◌};
ghost use Rattle.field.specs.Tables.{Lawful};
ghost use Rattle.field.specs.Grids.{entry};
ghost use Rattle.tower.specs.Towers.{copied};

pub(crate) mod copy;
pub(crate) mod pairs;
pub(crate) mod root;

// The tables of a field of order r up to 8, copied, 8 bytes a row.
#[derive(Clone, Copy)]
pub(crate) struct Base {
    pub(crate) r: u8,
    pub(crate) sums: [u8; 64],
    pub(crate) products: [u8; 64],
    ghost small: { r ≤ 8 },
    ghost laws: { ∥ Lawful (copied r sums products) ∥₁ },
}

// Stays (plain): sum and product differ in the table alone, and one function would take the table as a parameter at each call.
impl Base {
    // The sum of two codes of the base.
    pub(crate) fn sum(&self, a: u8, b: u8) -> u8
        requires { (a < self.now.r) × (b < self.now.r) }
        ensures answer { result ≡ entry 8 self.now.sums a b }
        ensures code { result < self.now.r }
    {
        self.sums[a as usize * 8 + b as usize]
    }

    // The product of two codes of the base.
    pub(crate) fn product(&self, a: u8, b: u8) -> u8
        requires { (a < self.now.r) × (b < self.now.r) }
        ensures answer { result ≡ entry 8 self.now.products a b }
        ensures code { result < self.now.r }
    {
        self.products[a as usize * 8 + b as usize]
    }
}

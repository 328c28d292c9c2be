ghost use Rattle.std.specs.Prelude.{◌≡◌};
ghost use Rattle.encoder.specs.Refusals.{number as number_of};

// Why nothing is encoded or extracted; `number` of the specs gives each case its number.
#[derive(Clone, Copy, PartialEq, Eq, Debug)]
pub enum CoderRefusal {
    // The field's order is not the code's.
    Order = 18,
    // The scratch is below M × N bytes.
    Scratch = 20,
    // The symbols are not N − M, or the word is not N long.
    Length = 7,
    // A symbol is not below the order.
    NotSymbol = 26,
    // A row of the word does not sum to 0.
    RowFails = 24,
    // The rows depend on each other.
    Dependent = 25,
}

impl CoderRefusal {
    // The number by which a report names the refusal.
    pub fn number(self) -> u8
        ensures answer { result ≡ number_of self }
    {
        self as u8
    }
}

ghost use Rattle.std.specs.Prelude.{◌≡◌};
ghost use Rattle.joiner.specs.Refusals.{number_of};

// Why a join is refused; `number_of` of the specs gives each case its number.
#[derive(Clone, Copy, PartialEq, Eq, Debug)]
pub enum JoinRefusal {
    Ceiling = 9,
    Length = 7,
    Cost = 8,
}

impl JoinRefusal {
    // The number by which a report names the refusal.
    pub fn number(self) -> u8
        ensures answer { result ≡ number_of self }
    {
        self as u8
    }
}

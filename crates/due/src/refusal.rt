ghost use Rattle.std.specs.Prelude.{◌≡◌};
ghost use Rattle.due.specs.Refusals.{number_of};

// Why a call on a frame is refused; `number_of` of the specs gives each case its number.
#[derive(Clone, Copy, PartialEq, Eq, Debug)]
pub enum FrameRefusal {
    // The field's order is not the code's.
    Order = 18,
    // The slip's numbers are not the code's.
    Numbers = 19,
    // The area has too few words.
    Area = 20,
    // There is no such column.
    Column = 21,
    // A channel or to-check cost exceeds the ceiling.
    Cost = 22,
    // All rounds are made.
    Limit = 23,
    // A row fails.
    RowFails = 24,
    // A vector is too short or too long.
    Length = 7,
}

impl FrameRefusal {
    // The number by which a report names the refusal.
    pub fn number(self) -> u8
        ensures answer { result ≡ number_of self }
    {
        self as u8
    }
}

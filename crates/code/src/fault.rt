ghost use Rattle.std.specs.Prelude.{◌≡◌};
ghost use Rattle.code.specs.Faults.{number as number_of, place as place_of};

// Why a code is not admitted, each with its place.
#[derive(Clone, Copy, PartialEq, Eq, Debug)]
pub enum CodeFault {
    // A number of the header, a table's length, an edge or an entry is out of range.
    OutOfRange(usize),
    // Edges do not rise by row and column, or entries by column and row.
    NotRising(usize),
    // A row or a column has too few or too many edges.
    Degree(usize),
    // The tables do not name the same pairs.
    Unmatched(usize),
}

impl CodeFault {
    // The fault's number, 12 to 15.
    // Stays (rule): each case holds its place, and an enum whose cases hold something takes no numbers as values.
    pub fn number(self) -> u8
        ensures answer { result ≡ number_of self }
    {
        match self {
            CodeFault::OutOfRange(_) => 12,
            CodeFault::NotRising(_) => 13,
            CodeFault::Degree(_) => 14,
            CodeFault::Unmatched(_) => 15,
        }
    }

    // Where in the tables it lies, as its kind counts places.
    pub fn place(self) -> usize
        ensures answer { result ≡ place_of self }
    {
        match self {
            CodeFault::OutOfRange(place)
            | CodeFault::NotRising(place)
            | CodeFault::Degree(place)
            | CodeFault::Unmatched(place) => place,
        }
    }
}

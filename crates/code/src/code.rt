ghost use Rattle.std.specs.Prelude.{◌≡◌, true};
ghost use Rattle.code.specs.Admission.{admission, granted};

pub mod admit;

use crate::table::{Edge, Entry, Header};

// An admitted code over two lent tables: whoever holds one has the rules.
#[derive(Clone, Copy)]
pub struct Code<'a> {
    header: Header,
    edges: &'a [Edge],
    entries: &'a [Entry],
    ghost admitted: { granted (admission header edges.now entries.now) ≡ true },
}

impl<'a> Code<'a> {
    // The code's numbers.
    pub fn header(&self) -> Header
        ensures answer { result ≡ self.now.header }
    {
        self.header
    }

    // The row table, as lent.
    pub fn edges(&self) -> &'a [Edge]
        ensures answer { result.now ≡ self.now.edges.now }
    {
        self.edges
    }

    // The column table, as lent.
    pub fn entries(&self) -> &'a [Entry]
        ensures answer { result.now ≡ self.now.entries.now }
    {
        self.entries
    }
}

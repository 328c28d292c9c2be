ghost use Rattle.std.specs.Prelude.{◌≡◌, Some};
ghost use Rattle.code.specs.Numbers.{numbers_of, header_in};
ghost use Rattle.code.specs.Texts.{numbers_text};

use crate::table::Header;
use std::fmt;

// The numbers of a code: its order q, N columns, M rows, W edges, the ceiling C of costs and the limit L of rounds.
#[derive(Clone, Copy, PartialEq, Eq, Debug)]
pub struct Numbers {
    pub order: u16,
    pub columns: u16,
    pub rows: u16,
    pub edges: usize,
    pub ceiling: u16,
    pub limit: u16,
}

impl Numbers {
    // A header's numbers, with the number of edges.
    // Stays (plain): the edges stand among the header's numbers, as they are printed, so the two types share no struct
    // that one could hand to the other whole.
    pub fn new(header: Header, edges: usize) -> Numbers
        ensures answer { result ≡ numbers_of header edges }
    {
        Numbers {
            order: header.order,
            columns: header.columns,
            rows: header.rows,
            edges,
            ceiling: header.ceiling,
            limit: header.limit,
        }
    }

    // The header that these numbers are of.
    pub fn header(self) -> Header
        ensures answer { result ≡ header_in self }
    {
        Header {
            order: self.order,
            columns: self.columns,
            rows: self.rows,
            ceiling: self.ceiling,
            limit: self.limit,
        }
    }
}

impl fmt::Display for Numbers {
    ghost output = { λ numbers. Some (numbers_text numbers) };

    fn fmt<W: fmt::Write>(&self, f: &mut fmt::Formatter<W>) -> fmt::Result {
        let Numbers {
            order,
            columns,
            rows,
            edges,
            ceiling,
            limit,
        } = *self;
        write!(f, "{order}\t{columns}\t{rows}\t{edges}\t{ceiling}\t{limit}")
    }
}

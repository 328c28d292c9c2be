ghost use Rattle.std.specs.Prelude.{◌≡◌, Bool};
ghost use Rattle.code.specs.declared.table.Header.{Header as HeaderOf};
ghost use Rattle.code.specs.Admission.{edge_before, edge_fits, entry_before, entry_fits};

use crate::table::{Edge, Entry, Header};

// A line of either table: what a header asks of it, and the order in which such lines stand.
pub(crate) trait Record: Copy {
    ghost fit: { HeaderOf → Self → Bool };

    ghost before: { Self → Self → Bool };

    fn fits(self, h: Header) -> bool
        ensures { result ≡ fit h self };

    fn is_before(self, later: Self) -> bool
        ensures { result ≡ before self later };
}

impl Record for Edge {
    ghost fit = { edge_fits };

    ghost before = { edge_before };

    fn fits(self, h: Header) -> bool {
        self.row < h.rows
            && self.column < h.columns
            && 1 <= self.coefficient
            && u16::from(self.coefficient) < h.order
    }

    // A derived order would also compare the coefficients.
    fn is_before(self, later: Edge) -> bool {
        (self.row, self.column) < (later.row, later.column)
    }
}

impl Record for Entry {
    ghost fit = { entry_fits };

    ghost before = { entry_before };

    fn fits(self, h: Header) -> bool {
        self.column < h.columns && self.row < h.rows
    }

    fn is_before(self, later: Entry) -> bool {
        (self.column, self.row) < (later.column, later.row)
    }
}

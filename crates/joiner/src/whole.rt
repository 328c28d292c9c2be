ghost use Rattle.std.specs.Prelude.{◌≤◌, length};
ghost use Rattle.std.specs.List.{range_with_len};
ghost use Rattle.joiner.specs.Loops.{entries_of};

use crate::entry::{Entries, Entry};

// Every entry of a vector, the codes rising.
#[derive(Drop)]
pub(crate) struct Whole<'a> {
    pub costs: &'a [u16],
    ghost few: { length costs.now ≤ 64 },
}

impl<'a> Entries for Whole<'a> {
    ghost entries = { λ v. entries_of v.costs.now (range_with_len 0 (length v.costs.now)) };

    fn len(&self) -> usize {
        self.costs.len()
    }

    fn at(&self, k: usize) -> Entry {
        Entry {
            code: k as u8,
            cost: self.costs[k],
        }
    }
}

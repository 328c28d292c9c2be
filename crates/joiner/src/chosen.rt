ghost use Rattle.std.specs.Prelude.{◌≡◌, ◌≤◌, length};
ghost use Rattle.joiner.specs.Level.{is_chosen};
ghost use Rattle.joiner.specs.Loops.{listed, entries_of, entries_in};

use crate::costs::not_above;
use crate::entry::{Entries, Entry};

// The entries of a vector that are not above a level, the codes rising: those that stand in front.
// Costs that are read one after another keep the processor from guessing which of two is the greater.
#[derive(Drop)]
pub(crate) struct Chosen {
    codes: [u8; 64],
    costs: [u16; 64],
    count: usize,
    ghost few: { count ≤ 64 },
    ghost long: { (length codes ≡ 64) × (length costs ≡ 64) },
}

impl Chosen {
    pub(crate) fn none() -> Chosen {
        Chosen {
            codes: [0; 64],
            costs: [0; 64],
            count: 0,
        }
    }

    // Chooses them. Every entry is written, and the next one over it unless it is chosen: no branch to mispredict.
    // Stays (plain): the count is raised by hand, since nothing collects into an array.
    // Stays (speed): two arrays, filled where they lie: an array of pairs that is handed out took 7 to 29 % more instructions.
    pub(crate) fn choose(&mut self, level: u16, costs: &[u16])
        requires { length costs.now ≤ 64 }
        ensures { entries_in self.new.codes self.new.costs self.new.count ≡ entries_of costs.now (listed (is_chosen costs.now level) (length costs.now)) }
    {
        let mut count = 0;
        for (a, x) in costs.iter().enumerate() {
            self.codes[count] = a as u8;
            self.costs[count] = *x;
            if not_above(*x, level) {
                count += 1;
            }
        }
        self.count = count;
    }
}

impl Entries for Chosen {
    ghost entries = { λ c. entries_in c.codes c.costs c.count };

    fn len(&self) -> usize {
        self.count
    }

    fn at(&self, k: usize) -> Entry {
        Entry {
            code: self.codes[k],
            cost: self.costs[k],
        }
    }
}

// Which columns the rows own, and the symbols of the others.
ghost use Rattle.std.specs.Prelude.{◌≡◌, ℕ, ◌<◌, ◌≤◌, not, length, Some, ◌==◌, slice_set};
ghost use Rattle.linear.specs.Count.{count};
ghost use Rattle.linear.specs.Filling.{owned_by, free_of, Placed, Gathered};

// Makes row `i` the owner of column `c`.
pub(crate) fn give(owners: &mut [Option<u16>], i: usize, c: usize)
    requires row { i < length owners.old }
    requires column { c < 256 }
    ensures { owners.new ≡ slice_set owners.old i (Some c) }
{
    owners[i] = Some(c as u16);
}

// Whether some row owns column `c`.
fn owned(owners: &[Option<u16>], c: usize) -> bool
    requires { c < 256 }
    ensures { result ≡ owned_by owners.now (length owners.now) c }
{
    owners.contains(&Some(c as u16))
}

// How many of the first `n` columns no row owns.
fn free_columns(owners: &[Option<u16>], n: usize) -> usize
    requires { n ≤ 256 }
    ensures { result ≡ count n (free_of owners.now (length owners.now)) }
{
    (0..n).filter(|c| !owned(owners, *c)).count()
}

// Whether the rows depend on each other: whether more columns are free than the word has symbols.
pub(crate) fn depend(owners: &[Option<u16>], n: usize, symbols: usize) -> bool
    requires { n ≤ 256 }
    ensures { result ≡ not (symbols == count n (free_of owners.now (length owners.now))) }
{
    symbols != free_columns(owners, n)
}

// Puts 0 into each owned column and the symbols, rising, into the others.
pub(crate) fn place(owners: &[Option<u16>], symbols: &[u8], word: &mut [u8])
    requires columns { length word.old ≤ 256 }
    requires enough { length symbols.now ≡ count (length word.old) (free_of owners.now (length owners.now)) }
    ensures { Placed (length owners.now) owners.now symbols.now word.new (length word.old) }
{
    let mut rest = symbols.iter();
    for (c, place) in word.iter_mut().enumerate() {
        *place = if owned(owners, c) {
            0
        } else {
            *rest.next().unwrap()
        };
    }
}

// Copies the symbols of the columns that no row owns, rising.
pub(crate) fn gather(owners: &[Option<u16>], word: &[u8], symbols: &mut [u8])
    requires columns { length word.now ≤ 256 }
    requires enough { length symbols.old ≡ count (length word.now) (free_of owners.now (length owners.now)) }
    ensures { Gathered (length owners.now) owners.now word.now symbols.new (length word.now) }
{
    // Stays (proof): with `symbols.iter_mut()` in a `zip` with the free columns, the loop's invariant has a name only for the references
    // handed out, not for what was written through them, so the place is counted.
    let mut k = 0;
    for (c, symbol) in word.iter().enumerate() {
        if !owned(owners, c) {
            symbols[k] = *symbol;
            k += 1;
        }
    }
}

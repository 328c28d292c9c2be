ghost use Rattle.std.specs.Prelude.{◌≡◌, ◌+◌, ◌≤◌, min, length, slice_index};
ghost use Rattle.std.specs.List.{fold};
ghost use Rattle.tree.specs.Rows.{tabled};
ghost use Rattle.frame.specs.Words.{Written, store_at};

use cost::{lesser, reduced};

// Zeroes the first n words.
pub fn clear(area: &mut [u16], n: usize)
    requires { n ≤ length area.old }
    ensures { Written 0 n (λ k. 0) area.old area.new }
{
    area[..n].fill(0);
}

// The least of some values.
fn least(values: &[u16]) -> u16
    requires { 1 ≤ length values.now }
    ensures { result ≡ fold min (slice_index values.now 0) values.now }
{
    values
        .iter()
        .fold(values[0], |m: u16, value| lesser(m, *value))
}

// Lessens the values by the least of them, and lowers them to the ceiling.
pub fn reduce(values: &mut [u16], ceiling: u16)
    requires { 1 ≤ length values.old }
    ensures { values.new ≡ tabled (length values.old) (store_at values.old ceiling) }
{
    let m = least(values);
    for value in values.iter_mut() {
        *value = reduced(*value, m, ceiling);
    }
}

// Writes the values less their least, lowered to the ceiling, to the words from `at` on.
pub fn store(area: &mut [u16], at: usize, values: &[u16], ceiling: u16)
    requires { (1 ≤ length values.now) × (at + length values.now ≤ length area.old) }
    ensures { Written at (at + length values.now) (store_at values.now ceiling) area.old area.new }
{
    // Stays (speed): in one pass; copied first and then lessened where they lie, a few values took up to twice the time.
    let m = least(values);
    for (a, value) in values.iter().enumerate() {
        area[at + a] = reduced(*value, m, ceiling);
    }
}

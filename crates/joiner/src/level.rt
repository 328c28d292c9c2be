ghost use Rattle.std.specs.Prelude.{◌≡◌, ℕ, ◌+◌, ◌<◌, ◌≤◌, length, slice_index};
ghost use Rattle.joiner.specs.Level.{first_from, level_of, IsLevel, Suffices};
ghost use Rattle.joiner.specs.Loops.{number, passes};

use crate::operands::Operands;
use field::Field;

// Adds to `counts` how often each cost stands in `costs`.
fn tally(costs: &[u16], counts: &mut [u8])
    requires few { length costs.now ≤ 64 }
    requires room { (a : ℕ) → slice_index costs.now a < length counts.old }
    requires small { (k : ℕ) → k < length counts.old → slice_index counts.old k ≤ 64 }
    ensures { (k : ℕ) → k < length counts.old → slice_index counts.new k ≡ slice_index counts.old k + number costs.now (length costs.now) k }
{
    for x in costs {
        let k = *x as usize;
        counts[k] += 1;
    }
}

// How many chosen entries together give the whole join over a field of order q: of so many, every code is the sum of a left and a right one.
pub fn enough(q: u8) -> u16
    ensures answer { result ≡ q + 1 }
    ensures law { Suffices q result }
{
    pigeonhole(q);
    q as u16 + 1
}

// The pigeonhole: q + 1 suffice.
fn pigeonhole(q: u8)
    ensures { Suffices q (q + 1) }
{}

// The first level up to which `n` or more entries are counted, else the last, which is as long as the counts.
fn scan(counts: &[u8], n: u16) -> u16
    requires room { (length counts.now ≤ 1023) × ((1 ≤ n) × (n ≤ 256)) }
    ensures { result ≡ first_from (passes counts.now n) 0 (length counts.now) }
{
    let mut sum = 0u16;
    for (level, count) in counts.iter().enumerate() {
        sum += *count as u16;
        if sum >= n {
            return level as u16;
        }
    }
    counts.len() as u16
}

// The level of two vectors, found with N counters, one for each cost that can occur.
fn level_with<const N: usize, F: Field>(operands: &Operands<F>) -> u16
    requires { (operands.now.ceiling < N) × (N ≤ 1024) }
    ensures { result ≡ level_of (F.Field.meaning operands.now.field.now).order operands.now.ceiling operands.now.left.now operands.now.right.now }
{
    let mut blank = [0u8; N];
    let counts = &mut blank[..];
    tally(operands.left, counts);
    tally(operands.right, counts);
    let last = operands.ceiling as usize - 1;
    scan(&counts[0..last], enough(operands.field.order()))
}

// The smallest level at which enough entries of both are chosen, else the ceiling less 1.
// A low ceiling has fewer counters to clear.
pub(crate) fn level_of<F: Field>(operands: &Operands<F>) -> u16
    ensures answer { result ≡ level_of (F.Field.meaning operands.now.field.now).order operands.now.ceiling operands.now.left.now operands.now.right.now }
    ensures law { IsLevel (F.Field.meaning operands.now.field.now).order operands.now.ceiling operands.now.left.now operands.now.right.now result }
{
    if operands.ceiling < 64 {
        level_with::<64, F>(operands)
    } else {
        level_with::<1024, F>(operands)
    }
}

ghost use Rattle.std.specs.Prelude.{◌≡◌, ◌+◌, ◌*◌, ◌<◌, length, replicate};
ghost use Rattle.joiner.specs.Loops.{Below, lowered_by, row_of, pairs_of};

use crate::costs::worse;
use crate::entry::{Entries, Entry};
use crate::operands::Operands;
use field::Field;

// The sum of two codes.
// Stays (rule): other crates have the same line, since a public function may not require that its codes are below q.
fn plus<F: Field>(field: &F, b: u8, c: u8) -> u8
    requires left { b < (F.Field.meaning field.now).order }
    requires right { c < (F.Field.meaning field.now).order }
    ensures is { result ≡ (F.Field.meaning field.now).sum b c }
    ensures code { result < (F.Field.meaning field.now).order }
{
    field.sum(b, c).unwrap()
}

// Stays (plain): that the lent vector is q long stands in each function that is handed it. A struct round the lent vector would ask for
// that fact at every write, and would be taken apart wherever the vector is lent on.

// Combines a pair: lowers the entry at the sum of the codes to the greater of the costs, where that is dearer, and tells one pair more.
fn combine_pair<F: Field>(
    field: &F,
    left: Entry,
    right: Entry,
    joined: &mut [u16],
    pairs: u32,
) -> u32
    requires left { left.code < (F.Field.meaning field.now).order }
    requires right { right.code < (F.Field.meaning field.now).order }
    requires long { length joined.old ≡ (F.Field.meaning field.now).order }
    requires few { pairs < 64 }
    ensures count { result ≡ pairs + 1 }
    ensures joined { joined.new ≡ lowered_by (F.Field.meaning field.now) left joined.old right }
{
    let a = plus(field, left.code, right.code) as usize;
    joined[a] = joined[a].min(worse(left.cost, right.cost));
    pairs + 1
}

// Combines a left entry with the right ones, and tells how many pairs these are.
fn combine_row<F: Field, R: Entries>(field: &F, left: Entry, rights: &R, joined: &mut [u16]) -> u32
    requires code { left.code < (F.Field.meaning field.now).order }
    requires codes { Below (F.Field.meaning field.now).order (R.Entries.entries rights.now) }
    requires long { length joined.old ≡ (F.Field.meaning field.now).order }
    ensures count { result ≡ length (R.Entries.entries rights.now) }
    ensures joined { joined.new ≡ row_of (F.Field.meaning field.now) left (R.Entries.entries rights.now) joined.old }
{
    // Stays (rule): pairs are counted as they are combined.
    let mut pairs = 0;
    for k in 0..rights.len() {
        pairs = combine_pair(field, left, rights.at(k), joined, pairs);
    }
    pairs
}

// Sets every entry to the ceiling, which stays where no pair reaches, and combines the left entries with the right ones. Tells how many
// pairs these are.
pub(crate) fn combine<F: Field, L: Entries, R: Entries>(
    operands: &Operands<F>,
    lefts: &L,
    rights: &R,
    joined: &mut [u16],
) -> u32
    requires lefts { Below (F.Field.meaning operands.now.field.now).order (L.Entries.entries lefts.now) }
    requires rights { Below (F.Field.meaning operands.now.field.now).order (R.Entries.entries rights.now) }
    requires long { length joined.old ≡ (F.Field.meaning operands.now.field.now).order }
    ensures count { result ≡ length (L.Entries.entries lefts.now) * length (R.Entries.entries rights.now) }
    ensures joined { joined.new ≡ pairs_of (F.Field.meaning operands.now.field.now) (L.Entries.entries lefts.now) (R.Entries.entries rights.now) (replicate (length joined.old) operands.now.ceiling) }
{
    joined.fill(operands.ceiling);
    let mut pairs = 0;
    for k in 0..lefts.len() {
        pairs += combine_row(operands.field, lefts.at(k), rights, joined);
    }
    pairs
}

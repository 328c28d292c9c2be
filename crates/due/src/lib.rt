// What the calls on a frame want of the field, the slip and what is lent, one test each.
#![tactic(auto)]

ghost use Rattle.std.specs.Prelude.{◌≡◌, suc, ◌+◌, ◌*◌, min, length, ◌==◌, nat_le, nat_lt, if◌then◌else◌};
ghost use Rattle.code.specs.Views.{view};
ghost use Rattle.tree.specs.Frame.{numbers_of, same_numbers, area_words};
ghost use Rattle.due.specs.Numbers.{numbers_in};

use code::code::Code;
use code::table::Header;
use field::Field;

mod refusal;

pub use code::numbers::Numbers;
pub use refusal::FrameRefusal;

// The numbers of a code.
// Stays (plain): as a `From` it would have to stand beside `Numbers` in crate code, far from the slips whose numbers it is compared with.
pub fn numbers_of(code: &Code) -> Numbers
    ensures { numbers_in result ≡ numbers_of (view code.now) }
{
    Numbers::new(code.header(), code.edges().len())
}

// Whether the field has the code's order.
pub fn has_order<F: Field>(field: &F, code: &Code) -> bool
    ensures { result ≡ ((F.Field.meaning field.now).order == (view code.now).header.order) }
{
    u16::from(field.order()) == code.header().order
}

// Whether a slip's numbers are the code's.
#[tactic(auto, unfolding(tree::specs::Frame::same_numbers))]
pub fn has_numbers(numbers: Numbers, code: &Code) -> bool
    ensures { result ≡ same_numbers (numbers_in numbers) (numbers_of (view code.now)) }
{
    numbers == numbers_of(code)
}

// Whether the area has the words that the code asks for.
pub fn has_room(code: &Code, area: &[u16]) -> bool
    ensures { result ≡ nat_le (area_words (view code.now)) (length area.now) }
{
    let header = code.header();
    let blocks = 2 * header.columns as usize + 2 * code.edges().len() + 36;
    blocks * header.order as usize <= area.len()
}

// Whether the code has the column.
pub fn has_column(code: &Code, column: u16) -> bool
    ensures { result ≡ nat_lt column (view code.now).header.columns }
{
    column < code.header().columns
}

// Whether a vector is as long as the field has codes.
pub fn has_codes(code: &Code, size: usize) -> bool
    ensures { result ≡ (size == (view code.now).header.order) }
{
    size == code.header().order as usize
}

// Whether a word is as long as the code has columns.
pub fn has_columns(code: &Code, size: usize) -> bool
    ensures { result ≡ (size == (view code.now).header.columns) }
{
    size == code.header().columns as usize
}

// Stays (plain): like `has_column`, of another number; one function for both would be the comparison itself.
// Whether a round is left.
pub fn has_rounds(code: &Code, made: u16) -> bool
    ensures { result ≡ nat_lt made (view code.now).header.limit }
{
    made < code.header().limit
}

// Goes on where a test holds, and refuses where it does not.
pub fn want(holds: bool, refusal: FrameRefusal) -> Result<(), FrameRefusal>
    ensures { result ≡ (if holds then Ok tt else Err refusal) }
{
    if holds { Ok(()) } else { Err(refusal) }
}

// Stays (plain): each call asks its own list of the tests below, one to a line and in the order of its refusals. Most lists have the
// numbers and then the area; a function for these two would spare a line in each and hide that order.

// Wants a field of the code's order.
pub fn want_order<F: Field>(field: &F, code: &Code) -> Result<(), FrameRefusal>
    ensures { result ≡ (if (F.Field.meaning field.now).order == (view code.now).header.order then Ok tt else Err FrameRefusal.Order) }
{
    want(has_order(field, code), FrameRefusal::Order)
}

// Wants a slip with the code's numbers.
pub fn want_numbers(numbers: Numbers, code: &Code) -> Result<(), FrameRefusal>
    ensures { result ≡ (if same_numbers (numbers_in numbers) (numbers_of (view code.now)) then Ok tt else Err FrameRefusal.Numbers) }
{
    want(has_numbers(numbers, code), FrameRefusal::Numbers)
}

// Wants as many words in the area as the code asks for.
pub fn want_area(code: &Code, area: &[u16]) -> Result<(), FrameRefusal>
    ensures { result ≡ (if nat_le (area_words (view code.now)) (length area.now) then Ok tt else Err FrameRefusal.Area) }
{
    want(has_room(code, area), FrameRefusal::Area)
}

// Wants a column of the code.
pub fn want_column(code: &Code, column: u16) -> Result<(), FrameRefusal>
    ensures { result ≡ (if nat_lt column (view code.now).header.columns then Ok tt else Err FrameRefusal.Column) }
{
    want(has_column(code, column), FrameRefusal::Column)
}

// Wants a vector as long as the field has codes.
pub fn want_codes(code: &Code, size: usize) -> Result<(), FrameRefusal>
    ensures { result ≡ (if size == (view code.now).header.order then Ok tt else Err FrameRefusal.Length) }
{
    want(has_codes(code, size), FrameRefusal::Length)
}

// Wants a word as long as the code has columns.
pub fn want_columns(code: &Code, size: usize) -> Result<(), FrameRefusal>
    ensures { result ≡ (if size == (view code.now).header.columns then Ok tt else Err FrameRefusal.Length) }
{
    want(has_columns(code, size), FrameRefusal::Length)
}

// Wants a round that is left.
pub fn want_round(code: &Code, made: u16) -> Result<(), FrameRefusal>
    ensures { result ≡ (if nat_lt made (view code.now).header.limit then Ok tt else Err FrameRefusal.Limit) }
{
    want(has_rounds(code, made), FrameRefusal::Limit)
}

// What a round tells: the rounds made, how many rows fail, and the pairs of its joins.
#[derive(Clone, Copy, PartialEq, Eq, Debug)]
pub struct Told {
    pub rounds: u16,
    pub failing: u16,
    pub pairs: u32,
}

// Stays (plain): `told_of`, `one_more` and `none_fails` take bare counts, since not every caller has a `Told`; each keeps one step of a
// round's answer where a clause states it.

// What a round tells, put together.
pub fn told_of(rounds: u16, failing: u16, pairs: u32) -> Told
    ensures { result ≡ record { rounds = rounds; failing = failing; pairs = pairs } }
{
    Told {
        rounds,
        failing,
        pairs,
    }
}

// The rounds made, with one more; 65,535 is the most.
pub fn one_more(made: u16) -> u16
    ensures { result ≡ min (suc made) 65535 }
{
    made.saturating_add(1)
}

// Whether no row fails.
pub fn none_fails(failing: u16) -> bool
    ensures { result ≡ (failing == 0) }
{
    failing == 0
}

// Where a column's distances begin in the area.
pub fn distances_at(header: Header, column: u16) -> usize
    ensures { result ≡ (header.columns + column) * header.order }
{
    (header.columns as usize + column as usize) * header.order as usize
}

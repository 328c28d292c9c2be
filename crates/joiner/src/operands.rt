ghost use Rattle.std.specs.Prelude.{◌≡◌, ◌&&◌, None, IfOk};
ghost use Rattle.std.specs.Result.{result_err};
ghost use Rattle.joiner.specs.Answers.{numbered, first_of, in_range, are_long, refusal_of};
ghost use Rattle.joiner.specs.Costs.{within};

use crate::refusal::JoinRefusal;
use cost::within;
use field::Field;

// What a join over a field takes that is not refused: a ceiling from 1 to 1,023, and two vectors of q costs up to it.
#[derive(Drop)]
pub(crate) struct Operands<'a, F: Field> {
    pub field: &'a F,
    pub ceiling: u16,
    pub left: &'a [u16],
    pub right: &'a [u16],
    ghost admitted: { refusal_of (F.Field.meaning field.now).order ceiling left.now right.now (F.Field.meaning field.now).order ≡ None },
}

impl<'a, F: Field> Operands<'a, F> {
    // Takes them, or tells why the join is refused; `target` is how long the third vector is.
    pub(crate) fn new(
        field: &'a F,
        ceiling: u16,
        left: &'a [u16],
        right: &'a [u16],
        target: usize,
    ) -> Result<Operands<'a, F>, JoinRefusal>
        ensures refusal { numbered (result_err result) ≡ refusal_of (F.Field.meaning field.now).order ceiling left.now right.now target }
        ensures long { IfOk result (λ o. target ≡ (F.Field.meaning o.field.now).order) }
        ensures operands { IfOk result (λ o. (o.field.now ≡ field.now) × (o.ceiling ≡ ceiling) × (o.left.now ≡ left.now) × (o.right.now ≡ right.now)) }
    {
        admitted(field.order() as usize, ceiling, left, right, target)?;
        Ok(Operands {
            field,
            ceiling,
            left,
            right,
        })
    }
}

// The first refusal, in the order of testing.
fn first(range: bool, long: bool, low: bool) -> Result<(), JoinRefusal>
    ensures { numbered (result_err result) ≡ first_of range long low }
{
    if !range {
        Err(JoinRefusal::Ceiling)
    } else if !long {
        Err(JoinRefusal::Length)
    } else if !low {
        Err(JoinRefusal::Cost)
    } else {
        Ok(())
    }
}

// Whether a ceiling is from 1 to 1,023.
fn in_range(ceiling: u16) -> bool
    ensures { result ≡ in_range ceiling }
{
    (1..=1023).contains(&ceiling)
}

// Whether three vectors are q long.
fn are_long(q: usize, left: usize, right: usize, target: usize) -> bool
    ensures { result ≡ are_long q left right target }
{
    left == q && right == q && target == q
}

// Whether a vector has no cost above the ceiling.
#[tactic(auto, using(crate::proofs::Granted::each_within))]
fn is_low(ceiling: u16, costs: &[u16]) -> bool
    ensures { result ≡ within ceiling costs.now }
{
    within(ceiling, costs)
}

// Whether neither vector has one.
fn are_low(ceiling: u16, left: &[u16], right: &[u16]) -> bool
    ensures { result ≡ (within ceiling left.now && within ceiling right.now) }
{
    is_low(ceiling, left) && is_low(ceiling, right)
}

// Admits a join, or tells why it is refused; `target` is how long the third vector is.
fn admitted(
    q: usize,
    ceiling: u16,
    left: &[u16],
    right: &[u16],
    target: usize,
) -> Result<(), JoinRefusal>
    ensures { numbered (result_err result) ≡ refusal_of q ceiling left.now right.now target }
{
    first(
        in_range(ceiling),
        are_long(q, left.len(), right.len(), target),
        are_low(ceiling, left, right),
    )
}

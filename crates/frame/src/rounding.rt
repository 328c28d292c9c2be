ghost use Rattle.std.specs.Prelude.{◌≡◌, if◌then◌else◌};
ghost use Rattle.code.specs.Views.{view};
ghost use Rattle.tree.specs.Rows.{PairsRule};
ghost use Rattle.tree.specs.Statement.{FromStands};
ghost use Rattle.tree.specs.Frame.{outcome, grants, rounds, next_slip};
ghost use Rattle.frame.specs.Slips.{rounded, running_of};
ghost use Rattle.frame.specs.Calls.{verdict_of, round_reply, AreaAfter};

use crate::body::body;
use crate::lows::{channel_low, to_check_low};
use crate::slip::RunningSlip;
use crate::symbols::failing_rows;
use code::code::Code;
use due::{
    FrameRefusal, Told, one_more, told_of, want, want_area, want_numbers, want_order, want_round,
};
use field::Field;
use joiner::Joiner;

// The tests of round.
#[tactic(auto, unfolding(tree::specs::Frame::outcome))]
fn grant<F: Field>(
    field: &F,
    code: &Code,
    slip: &RunningSlip,
    area: &[u16],
) -> Result<(), FrameRefusal>
    ensures { (pairs : PairsRule) → outcome (F.Field.meaning field.now) (view code.now) (rounds pairs) area.now (running_of slip.now) ≡ verdict_of result (round_reply (F.Field.meaning field.now) (view code.now) pairs area.now slip.now.made) }
{
    want_order(field, code)?;
    want_numbers(slip.numbers, code)?;
    want_area(code, area)?;
    want(channel_low(code, area), FrameRefusal::Cost)?;
    want(to_check_low(code, area), FrameRefusal::Cost)?;
    want_round(code, slip.made)
}

// Makes one round and tells the rounds made, how many rows fail and the pairs of its joins; the slip counts the round.
// Refuses a field of another order, then a slip of other numbers, a short area, a channel or to-check cost above the ceiling,
// a round past the limit, and writes nothing.
pub fn round<F: Field, J: Joiner>(
    field: &F,
    joiner: &J,
    code: &Code,
    slip: &mut RunningSlip,
    area: &mut [u16],
) -> Result<Told, FrameRefusal>
    ensures answer { rounded result ≡ outcome (F.Field.meaning field.now) (view code.now) (rounds (J.Joiner.pairs joiner.now)) area.old (running_of slip.old) }
    ensures slip { running_of slip.new ≡ (if grants (outcome (F.Field.meaning field.now) (view code.now) (rounds (J.Joiner.pairs joiner.now)) area.old (running_of slip.old)) then next_slip (view code.now) (rounds (J.Joiner.pairs joiner.now)) (running_of slip.old) else running_of slip.old) }
    ensures area { AreaAfter (F.Field.meaning field.now) (view code.now) (rounds (J.Joiner.pairs joiner.now)) (running_of slip.old) area.old area.new }
    ensures law { FromStands }
{
    grant(field, code, slip, area)?;
    let pairs = body(
        field,
        joiner,
        code.header(),
        code.edges(),
        code.entries(),
        area,
    );
    let failing = failing_rows(field, code, area);
    let made = one_more(slip.made);
    slip.made = made;
    Ok(told_of(made, failing, pairs))
}

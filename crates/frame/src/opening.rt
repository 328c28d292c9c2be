ghost use Rattle.std.specs.Prelude.{◌≡◌};
ghost use Rattle.code.specs.Views.{view};
ghost use Rattle.tree.specs.Frame.{outcome, opens, numbers_of, loading, no_slip, slip_given};
ghost use Rattle.frame.specs.Slips.{opened};
ghost use Rattle.frame.specs.Calls.{verdict_of, AreaAfter};

use crate::slip::LoadingSlip;
use crate::words::clear;
use code::code::Code;
use due::{FrameRefusal, numbers_of, want_area, want_order};
use field::Field;

// The tests of open.
#[tactic(auto, unfolding(tree::specs::Frame::outcome))]
fn grant<F: Field>(field: &F, code: &Code, area: &[u16]) -> Result<(), FrameRefusal>
    ensures { outcome (F.Field.meaning field.now) (view code.now) opens area.now no_slip ≡ verdict_of result (slip_given (loading (numbers_of (view code.now)))) }
{
    want_order(field, code)?;
    want_area(code, area)
}

// Begins a frame: zeroes the four parts of the area and gives a loading slip with the code's numbers.
// Refuses a field of another order, then an area that is too short, and writes nothing.
pub fn open<F: Field>(field: &F, code: &Code, area: &mut [u16]) -> Result<LoadingSlip, FrameRefusal>
    ensures answer { opened result ≡ outcome (F.Field.meaning field.now) (view code.now) opens area.old no_slip }
    ensures area { AreaAfter (F.Field.meaning field.now) (view code.now) opens no_slip area.old area.new }
{
    grant(field, code, area)?;
    let numbers = numbers_of(code);
    let held = (2 * numbers.columns as usize + 2 * numbers.edges) * numbers.order as usize;
    clear(area, held);
    Ok(LoadingSlip { numbers })
}

ghost use Rattle.std.specs.Prelude.{◌≡◌};
ghost use Rattle.field.specs.Tables.{Tables};
ghost use Rattle.code.specs.Views.{view};
ghost use Rattle.tree.specs.Frame.{outcome, loads, done};
ghost use Rattle.frame.specs.Slips.{loaded, loading_of};
ghost use Rattle.frame.specs.Calls.{verdict_of, AreaAfter};

use crate::slip::LoadingSlip;
use crate::words::store;
use code::code::Code;
use due::{FrameRefusal, want_area, want_codes, want_column, want_numbers};

// Stays (plain): the tests of each call take what was lent to that call: the code, the area, the slip or its numbers, and the column or
// the word. A struct of them would be made for the tests alone, before the area is lent mutably again.
// The tests of load.
#[tactic(auto, unfolding(tree::specs::Frame::outcome))]
fn grant(
    code: &Code,
    slip: &LoadingSlip,
    area: &[u16],
    column: u16,
    values: &[u16],
) -> Result<(), FrameRefusal>
    ensures { (F : Tables) → outcome F (view code.now) (loads column values.now) area.now (loading_of slip.now) ≡ verdict_of result done }
{
    want_numbers(slip.numbers, code)?;
    want_area(code, area)?;
    want_column(code, column)?;
    want_codes(code, values.len())
}

// Stores a column's channel costs: each value less the least value given, lowered to the ceiling.
// Refuses a slip of other numbers, then a short area, a column that is not there, a wrong number of values, and writes nothing.
pub fn load(
    code: &Code,
    slip: &LoadingSlip,
    area: &mut [u16],
    column: u16,
    values: &[u16],
) -> Result<(), FrameRefusal>
    ensures answer { (F : Tables) → loaded result ≡ outcome F (view code.now) (loads column values.now) area.old (loading_of slip.now) }
    ensures area { (F : Tables) → AreaAfter F (view code.now) (loads column values.now) (loading_of slip.now) area.old area.new }
{
    grant(code, slip, area, column, values)?;
    let header = code.header();
    store(
        area,
        column as usize * header.order as usize,
        values,
        header.ceiling,
    );
    Ok(())
}

ghost use Rattle.std.specs.Prelude.{◌≡◌, length, if◌then◌else◌};
ghost use Rattle.field.specs.Tables.{Tables};
ghost use Rattle.code.specs.Views.{view};
ghost use Rattle.tree.specs.Frame.{outcome, grants, reads, parts_of, decided, told, column_told};
ghost use Rattle.frame.specs.Slips.{read_out, running_of};
ghost use Rattle.frame.specs.Calls.{verdict_of};

use crate::decide::lowest;
use crate::slip::RunningSlip;
use code::code::Code;
use due::{FrameRefusal, distances_at, want_area, want_codes, want_column, want_numbers};

// The tests of read.
#[tactic(auto, unfolding(tree::specs::Frame::outcome))]
fn grant(
    code: &Code,
    slip: &RunningSlip,
    area: &[u16],
    column: u16,
    size: usize,
) -> Result<(), FrameRefusal>
    ensures { (F : Tables) → outcome F (view code.now) (reads column size) area.now (running_of slip.now) ≡ verdict_of result (column_told (told (view code.now) (parts_of (view code.now) area.now) column) (decided (view code.now) (parts_of (view code.now) area.now) column)) }
{
    want_numbers(slip.numbers, code)?;
    want_area(code, area)?;
    want_column(code, column)?;
    want_codes(code, size)
}

// Copies a column's distances to the target and answers its decided symbol, the lowest code of least distance.
// Refuses a slip of other numbers, then a short area, a column that is not there, a target that is not q long, and writes nothing.
pub fn read(
    code: &Code,
    slip: &RunningSlip,
    area: &[u16],
    column: u16,
    target: &mut [u16],
) -> Result<u8, FrameRefusal>
    ensures answer { (F : Tables) → read_out result target.new ≡ outcome F (view code.now) (reads column (length target.old)) area.now (running_of slip.now) }
    ensures target { (F : Tables) → target.new ≡ (if grants (outcome F (view code.now) (reads column (length target.old)) area.now (running_of slip.now)) then told (view code.now) (parts_of (view code.now) area.now) column else target.old) }
{
    grant(code, slip, area, column, target.len())?;
    let header = code.header();
    let q = header.order as usize;
    let at = distances_at(header, column);
    target.copy_from_slice(&area[at..at + q]);
    Ok(lowest(target))
}

ghost use Rattle.std.specs.Prelude.{◌≡◌, ℕ, ◌+◌, ◌<◌, ◌≤◌, length, Some, None, if◌then◌else◌};
ghost use Rattle.field.specs.Tables.{Tables};
ghost use Rattle.code.specs.Views.{view};
ghost use Rattle.tree.specs.Frame.{outcome, grants, starts, numbers_of, loading, running, slip_given};
ghost use Rattle.frame.specs.Blocks.{block, blocks, Filled};
ghost use Rattle.frame.specs.Columns.{column_at};
ghost use Rattle.frame.specs.Slips.{started, start_back, loading_of, running_of};
ghost use Rattle.due.specs.Numbers.{numbers_in};
ghost use Rattle.frame.specs.Calls.{verdict_of, AreaAfter};

use crate::blocks::Sizes;
use crate::costs::{begin, copy_block};
use crate::lows::channel_low;
use crate::slip::{LoadingSlip, NotStarted, RunningSlip};
use code::code::Code;
use code::table::Edge;
use due::{FrameRefusal, Numbers, want, want_area, want_numbers};

// The tests of start.
#[tactic(auto, unfolding(tree::specs::Frame::outcome))]
fn grant(code: &Code, numbers: Numbers, area: &[u16]) -> Result<(), FrameRefusal>
    ensures { (F : Tables) → outcome F (view code.now) starts area.now (loading (numbers_in numbers)) ≡ verdict_of result (slip_given (running (numbers_of (view code.now)) 0)) }
{
    want_numbers(numbers, code)?;
    want_area(code, area)?;
    want(channel_low(code, area), FrameRefusal::Cost)
}

// Copies each edge's column of channel costs to its to-check costs.
fn to_checks(edges: &[Edge], area: &mut [u16], sizes: Sizes)
    requires room { (sizes.n + sizes.n + length edges.now ≤ blocks sizes.q area.old) × (length edges.now ≤ 1024) }
    requires edges { (x : ℕ) → x < length edges.now → column_at edges.now x < sizes.n }
    ensures { Filled sizes.q (sizes.n + sizes.n) (length edges.now) (λ x. block sizes.q (column_at edges.now x) area.old) area.old area.new }
{
    for (e, edge) in edges.iter().enumerate() {
        copy_block(area, sizes, edge.column as usize, sizes.n + sizes.n + e);
    }
}

// A slip at 0 rounds.
fn begun(numbers: Numbers) -> RunningSlip
    ensures { running_of result ≡ running (numbers_in numbers) 0 }
{
    RunningSlip { numbers, made: 0 }
}

// Ends the loading: copies each column's channel costs to its distances and to its edges' to-check costs, and gives a running slip.
// Refuses a slip of other numbers, then a short area, a channel cost above the ceiling; the slip comes back and nothing is written.
pub fn start(code: &Code, slip: LoadingSlip, area: &mut [u16]) -> Result<RunningSlip, NotStarted>
    ensures answer { (F : Tables) → started result ≡ outcome F (view code.now) starts area.old (loading_of slip) }
    ensures back { (F : Tables) → start_back result ≡ (if grants (outcome F (view code.now) starts area.old (loading_of slip)) then None else Some (loading_of slip)) }
    ensures area { (F : Tables) → AreaAfter F (view code.now) starts (loading_of slip) area.old area.new }
{
    let numbers = slip.numbers;
    grant(code, numbers, area).map_err(|refusal| NotStarted { refusal, slip })?;
    let sizes = Sizes {
        q: numbers.order as usize,
        n: numbers.columns as usize,
    };
    begin(area, sizes);
    to_checks(code.edges(), area, sizes);
    Ok(begun(numbers))
}

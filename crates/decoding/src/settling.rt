ghost use Rattle.std.specs.Prelude.{◌≡◌};
ghost use Rattle.code.specs.Views.{view};
ghost use Rattle.tree.specs.Frame.{refused};
ghost use Rattle.tree.specs.Decoding.{conclude_on};
ghost use Rattle.frame.specs.Slips.{running_of};
ghost use Rattle.decoding.specs.Ends.{frame_of, Settled};

use code::code::Code;
use due::none_fails;
use field::Field;
use frame::{FrameRefusal, RunningSlip, round};
use joiner::Joiner;

// Why no further round is made while a row fails: the refusal of the next one, and how many rows failed after the last round, if
// one was made.
#[derive(Drop)]
pub struct Stop {
    pub refusal: FrameRefusal,
    pub failing: Option<u16>,
}

// Makes rounds on a frame of which a row fails, until none fails; tells where a round is refused before.
pub fn settle<F: Field, J: Joiner>(
    field: &F,
    joiner: &J,
    code: &Code,
    slip: &mut RunningSlip,
    area: &mut [u16],
) -> Result<(), Stop>
    requires { conclude_on (F.Field.meaning field.now) (view code.now) (view code.now).header.columns (frame_of area.old slip.old) ≡ refused 24 }
    ensures { Settled (F.Field.meaning field.now) (view code.now) (J.Joiner.pairs joiner.now) (frame_of area.old slip.old) area.new (running_of slip.new) result }
{
    let mut failing = None;
    loop {
        let told = round(field, joiner, code, slip, area).map_err(|refusal| Stop {
            refusal,
            failing,
        })?;
        if none_fails(told.failing) {
            return Ok(());
        }
        failing = Some(told.failing);
    }
}

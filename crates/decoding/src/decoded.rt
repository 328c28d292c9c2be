ghost use Rattle.std.specs.Prelude.{◌≡◌, length, if◌then◌else◌, Some, None, ◌==◌};
ghost use Rattle.code.specs.Views.{view};
ghost use Rattle.due.specs.Refusals.{number_of};
ghost use Rattle.tree.specs.Frame.{refused, grants, parts_of, word_of};
ghost use Rattle.tree.specs.Decoding.{fails, at_end, rounds_to, stopped, decoding as decoding_of, OwnRun, DecodingStands};
ghost use Rattle.decoding.specs.Ends.{frame_of, last_failing, decoded as decoded_by, slip_back, failing_back, AreaAtEnd};

use crate::settling::{Stop, settle};
use code::code::Code;
use field::Field;
use frame::{FrameRefusal, NotConcluded, RunningSlip, conclude};
use joiner::Joiner;

// Why no word was written: the refusal, how many rows fail after the last round if one was made, and the slip, with which the
// columns can still be read.
#[derive(Drop)]
pub struct NotDecoded {
    pub refusal: FrameRefusal,
    pub failing: Option<u16>,
    pub slip: RunningSlip,
}

// A refusal before any round.
impl From<NotConcluded> for NotDecoded {
    ghost from_gives = { λ back given. given ≡ record { refusal = back.refusal; failing = None; slip = back.slip } };

    fn from(back: NotConcluded) -> NotDecoded {
        let NotConcluded { refusal, slip } = back;
        NotDecoded {
            refusal,
            failing: None,
            slip,
        }
    }
}

// Whether a refusal tells a row that fails.
fn is_row(refusal: FrameRefusal) -> bool
    ensures { result ≡ (number_of refusal == 24) }
{
    refusal == FrameRefusal::RowFails
}

// What a refused round means while a row fails: at the limit the row is told.
fn reason(refusal: FrameRefusal) -> FrameRefusal
    ensures { refused (number_of result) ≡ stopped (refused (number_of refusal)) }
{
    match refusal {
        FrameRefusal::Limit => FrameRefusal::RowFails,
        other => other,
    }
}

// Makes rounds until no row fails or the limit is reached, at most L of them and none if no row fails at once; then writes the decided
// symbols and answers the rounds made. Refuses as conclude does before any round, and a channel or to-check cost above the ceiling;
// a row that still fails at the limit is told last. The slip comes back; what is refused before a round writes nothing.
pub fn decode<F: Field, J: Joiner>(
    field: &F,
    joiner: &J,
    code: &Code,
    slip: RunningSlip,
    area: &mut [u16],
    word: &mut [u8],
) -> Result<u16, NotDecoded>
    ensures answer { decoded_by result word.new ≡ decoding_of (F.Field.meaning field.now) (view code.now) (J.Joiner.pairs joiner.now) (length word.old) (frame_of area.old slip) }
    ensures back { slip_back result ≡ (if grants (decoding_of (F.Field.meaning field.now) (view code.now) (J.Joiner.pairs joiner.now) (length word.old) (frame_of area.old slip)) then None else Some (at_end (F.Field.meaning field.now) (view code.now) (J.Joiner.pairs joiner.now) (length word.old) (frame_of area.old slip)).slip) }
    ensures failing { failing_back result ≡ (if grants (decoding_of (F.Field.meaning field.now) (view code.now) (J.Joiner.pairs joiner.now) (length word.old) (frame_of area.old slip)) then None else last_failing (rounds_to (F.Field.meaning field.now) (view code.now) (J.Joiner.pairs joiner.now) (length word.old) (frame_of area.old slip)) (fails (F.Field.meaning field.now) (view code.now) (at_end (F.Field.meaning field.now) (view code.now) (J.Joiner.pairs joiner.now) (length word.old) (frame_of area.old slip)))) }
    ensures area { AreaAtEnd (F.Field.meaning field.now) (view code.now) (J.Joiner.pairs joiner.now) (length word.old) (frame_of area.old slip) area.new }
    ensures word { word.new ≡ (if grants (decoding_of (F.Field.meaning field.now) (view code.now) (J.Joiner.pairs joiner.now) (length word.old) (frame_of area.old slip)) then word_of (view code.now) (parts_of (view code.now) area.new) else word.old) }
    ensures run { OwnRun (F.Field.meaning field.now) (view code.now) (J.Joiner.pairs joiner.now) (length word.old) (frame_of area.old slip) area.new }
    ensures law { DecodingStands }
{
    // Stays (plain): one refusal goes on instead of back, so `?` can't stand for this match.
    match conclude(field, code, slip, area, word) {
        Ok(rounds) => Ok(rounds),
        Err(NotConcluded { refusal, mut slip }) if is_row(refusal) => {
            // Stays (plain): the slip goes into the refusal here and is used after it too, so a `map_err`, which would move it, can't
            // stand for this.
            if let Err(Stop { refusal, failing }) = settle(field, joiner, code, &mut slip, area) {
                return Err(NotDecoded {
                    refusal: reason(refusal),
                    failing,
                    slip,
                });
            }
            // This is never refused, since the first call was refused only for a failing row and none fails any more: no count is lost.
            Ok(conclude(field, code, slip, area, word)?)
        }
        Err(back) => Err(NotDecoded::from(back)),
    }
}

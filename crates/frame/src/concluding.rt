ghost use Rattle.std.specs.Prelude.{◌≡◌, ℕ, length, is_ok, Some, None, if◌then◌else◌};
ghost use Rattle.code.specs.Views.{view};
ghost use Rattle.tree.specs.Frame.{outcome, grants, concludes, running, word_told, parts_of, word_of};
ghost use Rattle.tree.specs.Run.{RunsStand};
ghost use Rattle.frame.specs.Slips.{concluded, conclude_back, running_of};
ghost use Rattle.due.specs.Numbers.{numbers_in};
ghost use Rattle.frame.specs.Calls.{conclude_tests, verdict_of};

use crate::slip::{NotConcluded, RunningSlip};
use crate::symbols::decided_word;
use code::code::Code;
use due::{FrameRefusal, Numbers, want, want_area, want_columns, want_numbers, want_order};
use field::Field;

// The tests of conclude that come before the rows.
#[tactic(auto, unfolding(tree::specs::Frame::outcome))]
fn grant<F: Field>(
    field: &F,
    code: &Code,
    numbers: Numbers,
    area: &[u16],
    size: usize,
) -> Result<(), FrameRefusal>
    ensures { conclude_tests result (F.Field.meaning field.now) (view code.now) (numbers_in numbers) area.now size }
{
    want_order(field, code)?;
    want_numbers(numbers, code)?;
    want_area(code, area)?;
    want_columns(code, size)
}

// Writes the decided symbols, where no test of conclude refuses.
fn write<F: Field>(
    field: &F,
    code: &Code,
    numbers: Numbers,
    area: &[u16],
    word: &mut [u8],
) -> Result<(), FrameRefusal>
    ensures answer { (made : ℕ) → outcome (F.Field.meaning field.now) (view code.now) (concludes (length word.old)) area.now (running (numbers_in numbers) made) ≡ verdict_of result (word_told (word_of (view code.now) (parts_of (view code.now) area.now)) made) }
    ensures word { word.new ≡ (if is_ok result then word_of (view code.now) (parts_of (view code.now) area.now) else word.old) }
{
    grant(field, code, numbers, area, word.len())?;
    want(
        decided_word(field, code, area, word),
        FrameRefusal::RowFails,
    )
}

// Writes the decided symbols, answers the rounds made and uses up the slip.
// Refuses a field of another order, then a slip of other numbers, a short area, a word that is not N long, a row that fails;
// the slip comes back and nothing is written.
pub fn conclude<F: Field>(
    field: &F,
    code: &Code,
    slip: RunningSlip,
    area: &[u16],
    word: &mut [u8],
) -> Result<u16, NotConcluded>
    ensures answer { concluded result word.new ≡ outcome (F.Field.meaning field.now) (view code.now) (concludes (length word.old)) area.now (running_of slip) }
    ensures back { conclude_back result ≡ (if grants (outcome (F.Field.meaning field.now) (view code.now) (concludes (length word.old)) area.now (running_of slip)) then None else Some (running_of slip)) }
    ensures word { word.new ≡ (if grants (outcome (F.Field.meaning field.now) (view code.now) (concludes (length word.old)) area.now (running_of slip)) then word_of (view code.now) (parts_of (view code.now) area.now) else word.old) }
    ensures law { RunsStand }
{
    let made = slip.made;
    write(field, code, slip.numbers, area, word).map_err(|refusal| NotConcluded { refusal, slip })?;
    Ok(made)
}

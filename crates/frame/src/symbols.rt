ghost use Rattle.std.specs.Prelude.{◌≡◌, ◌≤◌, length, if◌then◌else◌, ◌==◌};
ghost use Rattle.code.specs.Views.{view};
ghost use Rattle.tree.specs.Frame.{area_words, parts_of, decided, word_of};
ghost use Rattle.tree.specs.Frame.{failing as failing_rows};

use crate::blocks::Sizes;
use crate::checks::failing;
use crate::decide::decide;
use code::code::Code;
use due::none_fails;
use field::Field;

// Writes the decided symbols, and tells how many rows fail with them.
fn failing_with<F: Field>(field: &F, code: &Code, area: &[u16], word: &mut [u8]) -> u16
    requires order { (F.Field.meaning field.now).order ≡ (view code.now).header.order }
    requires room { (area_words (view code.now) ≤ length area.now) × (length word.old ≡ (view code.now).header.columns) }
    ensures answer { result ≡ failing_rows (F.Field.meaning field.now) (view code.now) (decided (view code.now) (parts_of (view code.now) area.now)) }
    ensures word { word.new ≡ word_of (view code.now) (parts_of (view code.now) area.now) }
{
    let header = code.header();
    let sizes = Sizes {
        q: header.order as usize,
        n: header.columns as usize,
    };
    decide(area, sizes, word);
    failing(field, code.edges(), word, header.rows)
}

// How many rows fail with the decided symbols.
pub fn failing_rows<F: Field>(field: &F, code: &Code, area: &[u16]) -> u16
    requires order { (F.Field.meaning field.now).order ≡ (view code.now).header.order }
    requires room { area_words (view code.now) ≤ length area.now }
    ensures { result ≡ failing_rows (F.Field.meaning field.now) (view code.now) (decided (view code.now) (parts_of (view code.now) area.now)) }
{
    let mut word = [0u8; 256];
    let n = code.header().columns as usize;
    failing_with(field, code, area, &mut word[0..n])
}

// Writes the decided symbols and says so, if no row fails with them.
// Stays (plain): the answer is a test, on which the caller refuses by `want`, as on its other tests; a `Result<(), FrameRefusal>` would
// name here the one refusal that only the caller's clause speaks of.
pub fn decided_word<F: Field>(field: &F, code: &Code, area: &[u16], word: &mut [u8]) -> bool
    requires order { (F.Field.meaning field.now).order ≡ (view code.now).header.order }
    requires room { (area_words (view code.now) ≤ length area.now) × (length word.old ≡ (view code.now).header.columns) }
    ensures answer { result ≡ (failing_rows (F.Field.meaning field.now) (view code.now) (decided (view code.now) (parts_of (view code.now) area.now)) == 0) }
    ensures word { word.new ≡ (if result then word_of (view code.now) (parts_of (view code.now) area.now) else word.old) }
{
    let mut found = [0u8; 256];
    let n = code.header().columns as usize;
    let found = &mut found[0..n];
    if !none_fails(failing_with(field, code, area, found)) {
        return false;
    }
    word.copy_from_slice(found);
    true
}

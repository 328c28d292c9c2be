// The tests that encoding and extracting begin with.
ghost use Rattle.std.specs.Prelude.{◌≡◌, ◌≤◌, length, Ok};
ghost use Rattle.encoder.specs.Answers.{are_codes, information_length, opening};

use crate::refusal::CoderRefusal;
use code::code::Code;
use field::Field;

// How many symbols a word of the code carries.
fn information_length(code: &Code) -> usize
    ensures { result ≡ information_length code.now }
{
    let header = code.header();
    header.columns as usize - header.rows as usize
}

// Whether each of the symbols is below the order.
fn are_codes(order: u8, symbols: &[u8]) -> bool
    ensures { result ≡ are_codes order symbols.now }
{
    symbols.iter().all(|symbol| *symbol < order)
}

// Tests the order, the lengths of scratch, symbols and word, and what is given to read.
pub(crate) fn open<F: Field>(
    field: &F,
    code: &Code,
    symbols: usize,
    scratch: usize,
    word: usize,
    given: &[u8],
) -> Result<(), CoderRefusal>
    ensures { result ≡ opening (F.Field.meaning field.now) code.now symbols scratch word given.now (Ok tt) }
{
    let header = code.header();
    if field.order() as u16 != header.order {
        return Err(CoderRefusal::Order);
    }
    if scratch < header.rows as usize * header.columns as usize {
        return Err(CoderRefusal::Scratch);
    }
    if symbols != information_length(code) || word != header.columns as usize {
        return Err(CoderRefusal::Length);
    }
    if !are_codes(field.order(), given) {
        return Err(CoderRefusal::NotSymbol);
    }
    Ok(())
}

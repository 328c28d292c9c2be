// Encoding: the codeword that carries given symbols.
ghost use Rattle.std.specs.Prelude.{◌≡◌, false, length, if◌then◌else◌, Ok};
ghost use Rattle.linear.specs.Encoded.{the_word};
ghost use Rattle.linear.specs.Laws.{LawsStand};
ghost use Rattle.linear.specs.Rows.{dependent};
ghost use Rattle.encoder.specs.Answers.{refuse, encoding, granted, uses_scratch};
ghost use Rattle.encoder.specs.CheckMatrix.{MatrixTold, check_matrix};
ghost use Rattle.encoder.specs.Examples.{ExampleA};
ghost use Rattle.encoder.specs.Opened.{Opened};
ghost use Rattle.encoder.specs.Promises.{EncodingLaw};
ghost use Rattle.encoder.specs.declared.refusal.CoderRefusal.TheVariants.{Dependent};

use crate::elimination::Elimination;
use crate::refusal::CoderRefusal;
use crate::{opening, owners, products};
use code::code::Code;
use field::Field;

// Encodes once the opening tests are passed.
// Stays (rule): field, code and scratch are lent by the caller, each by a parameter of its own, to encode as to extract.
// Stays (plain): `extract_opened` eliminates by the same lines. A function for both would hand back the elimination and its owners, and
// promise of each what the lines now show in place.
fn encode_opened<F: Field>(
    field: &F,
    code: &Code,
    symbols: &[u8],
    scratch: &mut [u8],
    word: &mut [u8],
) -> Result<(), CoderRefusal>
    requires { Opened (F.Field.meaning field.now) code.now (length symbols.now) (length scratch.old) (length word.old) symbols.now }
    ensures answer { result ≡ refuse (dependent (F.Field.meaning field.now) (check_matrix code.now)) Dependent (Ok tt) }
    ensures word { word.new ≡ (if granted result then the_word (F.Field.meaning field.now) (check_matrix code.now) symbols.now else word.old) }
{
    let mut products = [0; 4096];
    products::multiply_all(field, &mut products);
    let elimination = Elimination::new(field, &products, code);
    let mut owners = [None; 128];
    let owners = &mut owners[0..elimination.rows];
    elimination.eliminate(code.edges(), owners, scratch);
    if owners::depend(owners, elimination.columns, symbols.len()) {
        return Err(CoderRefusal::Dependent);
    }
    owners::place(owners, symbols, word);
    elimination.finish(scratch, owners, word);
    Ok(())
}

// Writes the only codeword whose information columns hold the symbols in rising order.
// Refused, it leaves the word as it is, and the scratch too unless the rows depend on each other.
pub fn encode<F: Field>(
    field: &F,
    code: &Code,
    symbols: &[u8],
    scratch: &mut [u8],
    word: &mut [u8],
) -> Result<(), CoderRefusal>
    ensures answer { result ≡ encoding (F.Field.meaning field.now) code.now symbols.now (length scratch.old) (length word.old) }
    ensures word { word.new ≡ (if granted (encoding (F.Field.meaning field.now) code.now symbols.now (length scratch.old) (length word.old)) then the_word (F.Field.meaning field.now) (check_matrix code.now) symbols.now else word.old) }
    ensures scratch { uses_scratch result ≡ false → scratch.new ≡ scratch.old }
    ensures law { EncodingLaw (F.Field.meaning field.now) (check_matrix code.now) symbols.now word.new result }
    ensures matrix { MatrixTold code.now.edges.now (check_matrix code.now) }
    ensures theory { LawsStand }
    ensures example { ExampleA }
{
    opening::open(
        field,
        code,
        symbols.len(),
        scratch.len(),
        word.len(),
        symbols,
    )?;
    encode_opened(field, code, symbols, scratch, word)
}

// Extracting: the symbols that a codeword carries.
ghost use Rattle.std.specs.Prelude.{◌≡◌, true, false, length, if◌then◌else◌, Ok};
ghost use Rattle.linear.specs.Encoded.{symbols_of};
ghost use Rattle.linear.specs.Laws.{LawsStand};
ghost use Rattle.linear.specs.Rows.{dependent, row_fails};
ghost use Rattle.encoder.specs.Answers.{refuse, extraction, granted, uses_scratch};
ghost use Rattle.encoder.specs.CheckMatrix.{MatrixTold, check_matrix};
ghost use Rattle.encoder.specs.Opened.{Opened};
ghost use Rattle.encoder.specs.Promises.{ExtractionLaw};
ghost use Rattle.encoder.specs.declared.refusal.CoderRefusal.TheVariants.{RowFails, Dependent};

use crate::elimination::Elimination;
use crate::refusal::CoderRefusal;
use crate::{edges, opening, owners, products};
use code::code::Code;
use field::Field;

// Extracts once the opening tests are passed.
fn extract_opened<F: Field>(
    field: &F,
    code: &Code,
    word: &[u8],
    scratch: &mut [u8],
    symbols: &mut [u8],
) -> Result<(), CoderRefusal>
    requires { Opened (F.Field.meaning field.now) code.now (length symbols.old) (length scratch.old) (length word.now) word.now }
    ensures answer { result ≡ refuse (row_fails (F.Field.meaning field.now) (check_matrix code.now) word.now) RowFails (refuse (dependent (F.Field.meaning field.now) (check_matrix code.now)) Dependent (Ok tt)) }
    ensures symbols { symbols.new ≡ (if granted result then symbols_of (F.Field.meaning field.now) (check_matrix code.now) word.now else symbols.old) }
    ensures scratch { uses_scratch result ≡ false → scratch.new ≡ scratch.old }
{
    let edges = code.edges();
    if edges::row_fails(field, edges, word, code.header().rows as usize) {
        return Err(CoderRefusal::RowFails);
    }
    let mut products = [0; 4096];
    products::multiply_all(field, &mut products);
    let elimination = Elimination::new(field, &products, code);
    let mut owners = [None; 128];
    let owners = &mut owners[0..elimination.rows];
    elimination.eliminate(edges, owners, scratch);
    if owners::depend(owners, elimination.columns, symbols.len()) {
        return Err(CoderRefusal::Dependent);
    }
    owners::gather(owners, word, symbols);
    Ok(())
}

// Writes the symbols of the codeword's information columns in rising order.
// Refused, it leaves the symbols as they are, and the scratch too unless the rows depend on each other.
pub fn extract<F: Field>(
    field: &F,
    code: &Code,
    word: &[u8],
    scratch: &mut [u8],
    symbols: &mut [u8],
) -> Result<(), CoderRefusal>
    ensures answer { result ≡ extraction (F.Field.meaning field.now) code.now word.now (length scratch.old) (length symbols.old) }
    ensures symbols { symbols.new ≡ (if granted (extraction (F.Field.meaning field.now) code.now word.now (length scratch.old) (length symbols.old)) then symbols_of (F.Field.meaning field.now) (check_matrix code.now) word.now else symbols.old) }
    ensures scratch { uses_scratch result ≡ false → scratch.new ≡ scratch.old }
    ensures law { ExtractionLaw (F.Field.meaning field.now) (check_matrix code.now) word.now symbols.new result }
    ensures matrix { MatrixTold code.now.edges.now (check_matrix code.now) }
    ensures theory { LawsStand }
{
    opening::open(field, code, symbols.len(), scratch.len(), word.len(), word)?;
    extract_opened(field, code, word, scratch, symbols)
}

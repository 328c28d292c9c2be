use crate::small::{WORDS, concludes, not_concluded, small, started};
use code::code::Code;
use field::Field;
use frame::{RunningSlip, read, round};
use joiner::{Full, Joiner, Selective};
use prime::Prime;
use std::process::Abort;
use std::test::Fail;

const DISTANCES: [[u16; 3]; 4] = [[0, 7, 5], [0, 8, 11], [0, 3, 3], [0, 5, 6]];

// A round tells one round, no failing row and so many pairs.
fn rounds<F: Field, J: Joiner>(
    rt: &impl Abort,
    field: &F,
    joiner: &J,
    code: &Code,
    slip: &mut RunningSlip,
    area: &mut [u16],
    pairs: u32,
) -> Result<(), Fail> {
    let told = round(field, joiner, code, slip, area)?;
    assert_eq!(rt; told.rounds, 1);
    assert_eq!(rt; told.failing, 0);
    assert_eq!(rt; told.pairs, pairs);
    Ok(())
}

// A column has these distances, and 0 is its symbol.
fn reads(
    rt: &impl Abort,
    code: &Code,
    slip: &RunningSlip,
    area: &[u16],
    column: u16,
    due: [u16; 3],
) -> Result<(), Fail> {
    let mut target = [9u16; 3];
    let symbol = read(code, slip, area, column, &mut target)?;
    assert_eq!(rt; symbol, 0);
    assert_eq!(rt; target, due);
    Ok(())
}

// The calls of the worked example, in an area that holds other words before.
fn example<J: Joiner>(rt: &impl Abort, joiner: &J, pairs: u32) -> Result<(), Fail> {
    let field = Prime::new(3)?;
    let code = small(20);
    let mut area = [7u16; WORDS];
    let slip = started(&field, &code, &mut area)?;
    let mut word = [9u8; 4];
    let mut slip = not_concluded(rt, &field, &code, slip, &area, &mut word, 24);
    assert_eq!(rt; word, [9; 4]);
    rounds(rt, &field, joiner, &code, &mut slip, &mut area, pairs)?;
    for (column, distances) in DISTANCES.iter().enumerate() {
        reads(rt, &code, &slip, &area, column as u16, *distances)?;
    }
    concludes(rt, &field, &code, slip, &area, &mut word, 1)
}

// Stays (plain): a test for each joiner, by its name, over the one function above, which is generic in the joiner.
#[test]
fn with_all_pairs(rt: HostRuntime) -> Result<(), Fail> {
    example(&rt, &Full, 54)
}

#[test]
fn with_selected_pairs(rt: HostRuntime) -> Result<(), Fail> {
    example(&rt, &Selective, 24)
}

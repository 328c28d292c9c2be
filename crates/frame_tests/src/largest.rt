use crate::small::{concludes, not_concluded};
use binary::Binary;
use code::code::Code;
use code::code::admit::admit;
use code::table::{Edge, Entry, Header};
use field::Field;
use frame::{LoadingSlip, RunningSlip, load, open, round, start};
use joiner::{Full, Joiner, Selective};
use std::process::Abort;
use std::test::Fail;

// 64 words for each of 512 + 2,048 + 36 blocks.
const WORDS: usize = 166144;

const HEADER: Header = Header {
    order: 64,
    columns: 256,
    rows: 128,
    ceiling: 1023,
    limit: 200,
};

// Each row checks a column in each of eight groups of 32.
fn edges() -> [Edge; 1024] {
    let mut edges = [Edge {
        row: 0,
        column: 0,
        coefficient: 1,
    }; 1024];
    for (i, edge) in edges.iter_mut().enumerate() {
        let r = i / 8;
        let k = i % 8;
        let column = 32 * k + (r + 5 * k) % 32;
        let coefficient = 1 + (7 * r + 13 * k) % 63;
        *edge = Edge {
            row: r as u16,
            column: column as u16,
            coefficient: coefficient as u8,
        };
    }
    edges
}

// The four rows that check each column.
fn entries() -> [Entry; 1024] {
    let mut entries = [Entry { column: 0, row: 0 }; 1024];
    for (i, entry) in entries.iter_mut().enumerate() {
        let column = i / 4;
        let k = column / 32;
        let row = (column % 32 + 256 - 5 * k) % 32 + 32 * (i % 4);
        *entry = Entry {
            column: column as u16,
            row: row as u16,
        };
    }
    entries
}

// The values of a column: 0 is the cheapest symbol, but in every column that 6 divides, where noise has made another cheaper.
fn values(column: u16) -> [u16; 64] {
    let mut values = [0u16; 64];
    for (a, value) in values.iter_mut().enumerate().skip(1) {
        *value = 100 + (37 * a as u16 + column % 64) % 200;
    }
    if column % 6 == 0 {
        values[0] = 80;
        values[1 + column as usize % 63] = 0;
    }
    values
}

fn loads(code: &Code, slip: &LoadingSlip, area: &mut [u16]) -> Result<(), Fail> {
    for c in 0..256u16 {
        load(code, slip, area, c, &values(c))?;
    }
    Ok(())
}

// Makes up to five rounds, until no row fails, and tells how many.
fn rounds<F: Field, J: Joiner>(
    field: &F,
    joiner: &J,
    code: &Code,
    slip: &mut RunningSlip,
    area: &mut [u16],
) -> Result<u16, Fail> {
    for _ in 0..5 {
        let told = round(field, joiner, code, slip, area)?;
        if told.failing == 0 {
            return Ok(told.rounds);
        }
    }
    Err(Fail::new("a row still fails"))
}

fn decodes<J: Joiner>(rt: &impl Abort, joiner: &J, area: &mut [u16]) -> Result<(), Fail> {
    let field = Binary::new(6, 67)?;
    let edges = edges();
    let entries = entries();
    let mut code = Code::builtin();
    admit(HEADER, &edges, &entries, &mut code)?;
    let slip = open(&field, &code, area)?;
    loads(&code, &slip, area)?;
    let slip = start(&code, slip, area).map_err(|back| back.refusal)?;
    let mut word = [9u8; 256];
    let mut slip = not_concluded(rt, &field, &code, slip, area, &mut word, 24);
    let made = rounds(&field, joiner, &code, &mut slip, area)?;
    assert_eq!(rt; made, 2);
    concludes(rt, &field, &code, slip, area, &mut word, 2)
}

// Stays (plain): a test for each joiner, by its name, over the one function above, which is generic in the joiner.
#[test]
fn with_all_pairs(rt: HostRuntime) -> Result<(), Fail> {
    let mut area = vec![in rt.alloc(); 0u16; WORDS]?;
    decodes(&rt, &Full, area.as_mut_slice())
}

#[test]
fn with_selected_pairs(rt: HostRuntime) -> Result<(), Fail> {
    let mut area = vec![in rt.alloc(); 0u16; WORDS]?;
    decodes(&rt, &Selective, area.as_mut_slice())
}

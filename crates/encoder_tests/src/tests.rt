use binary::Binary;
use code::code::Code;
use code::code::admit::admit;
use code::table::{Edge, Entry, Header};
use encoder::refusal::CoderRefusal;
use encoder::{encode, extract};
use field::Field;
use prime::Prime;
use std::process::Abort;
use std::test::Fail;
use tower::Tower;

// Stays (plain): a constant's value calls no function, and a code borrows its table, so with a function each test would bind the tables
// first.
const EDGES: [Edge; 6] = [
    Edge {
        row: 0,
        column: 0,
        coefficient: 1,
    },
    Edge {
        row: 0,
        column: 1,
        coefficient: 1,
    },
    Edge {
        row: 0,
        column: 2,
        coefficient: 1,
    },
    Edge {
        row: 1,
        column: 1,
        coefficient: 1,
    },
    Edge {
        row: 1,
        column: 2,
        coefficient: 2,
    },
    Edge {
        row: 1,
        column: 3,
        coefficient: 1,
    },
];

const ENTRIES: [Entry; 6] = [
    Entry { column: 0, row: 0 },
    Entry { column: 1, row: 0 },
    Entry { column: 1, row: 1 },
    Entry { column: 2, row: 0 },
    Entry { column: 2, row: 1 },
    Entry { column: 3, row: 1 },
];

// Two rows over so many columns.
fn header(order: u16, columns: u16) -> Header {
    Header {
        order,
        columns,
        rows: 2,
        ceiling: 31,
        limit: 20,
    }
}

#[test]
fn example(rt: HostRuntime) -> Result<(), Fail> {
    let field = Prime::new(3)?;
    let mut code = Code::builtin();
    admit(header(3, 4), &EDGES, &ENTRIES, &mut code)?;
    let mut scratch = [9; 8];
    let mut word = [9; 4];
    encode(&field, &code, &[1, 1], &mut scratch, &mut word)?;
    assert_eq!(rt; word, [1, 1, 1, 0]);
    let mut symbols = [9; 2];
    extract(&field, &code, &word, &mut scratch, &mut symbols)?;
    assert_eq!(rt; symbols, [1, 1]);
    Ok(())
}

fn round_trip<F: Field>(rt: &impl Abort, field: &F, code: &Code, a: u8, b: u8) -> Result<(), Fail> {
    let mut scratch = [9; 8];
    let mut word = [9; 4];
    let mut symbols = [9; 2];
    encode(field, code, &[a, b], &mut scratch, &mut word)?;
    extract(field, code, &word, &mut scratch, &mut symbols)?;
    assert_eq!(rt; symbols, [a, b]);
    Ok(())
}

// Each pair of symbols comes back from its word.
fn round_trips<F: Field>(rt: &impl Abort, field: &F) -> Result<(), Fail> {
    let mut code = Code::builtin();
    admit(header(field.order() as u16, 4), &EDGES, &ENTRIES, &mut code)?;
    for a in 0..field.order() {
        for b in 0..field.order() {
            round_trip(rt, field, &code, a, b)?;
        }
    }
    Ok(())
}

#[test]
fn fields(rt: HostRuntime) -> Result<(), Fail> {
    round_trips(&rt, &Prime::new(5)?)?;
    round_trips(&rt, &Binary::new(3, 11)?)?;
    round_trips(&rt, &Tower::of_four())
}

fn is_untouched(rt: &impl Abort, buffer: &[u8]) {
    for x in buffer {
        assert_eq!(rt; *x, 9);
    }
}

// A refused call leaves every buffer as it was.
// Stays (plain): `refuses_extracting` differs in the call. One function for both would take the call as a closure, and each use would
// name it.
fn refuses_encoding(
    rt: &impl Abort,
    order: u8,
    symbols: &[u8],
    scratch: &mut [u8],
    word: &mut [u8],
    why: CoderRefusal,
) -> Result<(), Fail> {
    let field = Prime::new(order)?;
    let mut code = Code::builtin();
    admit(header(3, 4), &EDGES, &ENTRIES, &mut code)?;
    assert_eq!(rt; encode(&field, &code, symbols, scratch, word), Err(why));
    is_untouched(rt, word);
    is_untouched(rt, scratch);
    Ok(())
}

fn refuses_extracting(
    rt: &impl Abort,
    order: u8,
    word: &[u8],
    scratch: &mut [u8],
    symbols: &mut [u8],
    why: CoderRefusal,
) -> Result<(), Fail> {
    let field = Prime::new(order)?;
    let mut code = Code::builtin();
    admit(header(3, 4), &EDGES, &ENTRIES, &mut code)?;
    assert_eq!(rt; extract(&field, &code, word, scratch, symbols), Err(why));
    is_untouched(rt, symbols);
    is_untouched(rt, scratch);
    Ok(())
}

#[test]
fn refusals(rt: HostRuntime) -> Result<(), Fail> {
    refuses_encoding(&rt, 5, &[3], &mut [9; 7], &mut [9; 3], CoderRefusal::Order)?;
    refuses_encoding(
        &rt,
        3,
        &[3],
        &mut [9; 7],
        &mut [9; 3],
        CoderRefusal::Scratch,
    )?;
    refuses_encoding(&rt, 3, &[3], &mut [9; 8], &mut [9; 4], CoderRefusal::Length)?;
    refuses_encoding(
        &rt,
        3,
        &[3, 0],
        &mut [9; 8],
        &mut [9; 3],
        CoderRefusal::Length,
    )?;
    refuses_encoding(
        &rt,
        3,
        &[0, 3],
        &mut [9; 8],
        &mut [9; 4],
        CoderRefusal::NotSymbol,
    )?;
    refuses_extracting(&rt, 5, &[3], &mut [9; 7], &mut [9; 3], CoderRefusal::Order)?;
    refuses_extracting(
        &rt,
        3,
        &[3],
        &mut [9; 7],
        &mut [9; 3],
        CoderRefusal::Scratch,
    )?;
    refuses_extracting(
        &rt,
        3,
        &[1, 1, 3, 0],
        &mut [9; 8],
        &mut [9; 3],
        CoderRefusal::Length,
    )?;
    refuses_extracting(
        &rt,
        3,
        &[1, 1, 3],
        &mut [9; 8],
        &mut [9; 2],
        CoderRefusal::Length,
    )?;
    refuses_extracting(
        &rt,
        3,
        &[1, 1, 3, 0],
        &mut [9; 8],
        &mut [9; 2],
        CoderRefusal::NotSymbol,
    )?;
    refuses_extracting(
        &rt,
        3,
        &[1, 1, 1, 1],
        &mut [9; 8],
        &mut [9; 2],
        CoderRefusal::RowFails,
    )
}

const TWICE: [Edge; 6] = [
    Edge {
        row: 0,
        column: 0,
        coefficient: 1,
    },
    Edge {
        row: 0,
        column: 1,
        coefficient: 1,
    },
    Edge {
        row: 0,
        column: 2,
        coefficient: 1,
    },
    Edge {
        row: 1,
        column: 0,
        coefficient: 2,
    },
    Edge {
        row: 1,
        column: 1,
        coefficient: 2,
    },
    Edge {
        row: 1,
        column: 2,
        coefficient: 2,
    },
];

const TWICE_ENTRIES: [Entry; 6] = [
    Entry { column: 0, row: 0 },
    Entry { column: 0, row: 1 },
    Entry { column: 1, row: 0 },
    Entry { column: 1, row: 1 },
    Entry { column: 2, row: 0 },
    Entry { column: 2, row: 1 },
];

// The second row is twice the first.
#[test]
fn dependent(rt: HostRuntime) -> Result<(), Fail> {
    let field = Prime::new(3)?;
    let mut code = Code::builtin();
    admit(header(3, 3), &TWICE, &TWICE_ENTRIES, &mut code)?;
    let mut scratch = [9; 6];
    let mut word = [9; 3];
    assert_eq!(rt;
        encode(&field, &code, &[1], &mut scratch, &mut word),
        Err(CoderRefusal::Dependent)
    );
    assert_eq!(rt; word, [9; 3]);
    let mut symbols = [9; 1];
    assert_eq!(rt;
        extract(&field, &code, &[1, 1, 1], &mut scratch, &mut symbols),
        Err(CoderRefusal::Dependent)
    );
    assert_eq!(rt; symbols, [9]);
    Ok(())
}

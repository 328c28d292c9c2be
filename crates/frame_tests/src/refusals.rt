use crate::small::{WORDS, not_concluded, small, started};
use code::code::Code;
use field::Field;
use frame::{LoadingSlip, RunningSlip, load, open, read, round, start};
use joiner::Full;
use prime::Prime;
use std::process::Abort;
use std::test::Fail;

// A line of a table that breaks several rules is refused for the first of them.
// The code's limit is 20, so that a slip of the limit 19 has other numbers.
// Stays (plain): a table holds the numbers of refusals and not the refusals, because the number itself is under test.
// Stays (plain): each call has a table with columns of its own, a function that tries one line, and a test that goes over the lines. A
// struct of a line would give each number a name a second time, and a function over any table would call the trying one through a closure
// of as many parameters.
// Stays (plain): where a line tells a vector's size, the vector is the front of an array, so that a part that is too long and one that is
// too short come from the same words.

// The field's order, the area's words, the refusal.
const OPENINGS: [(u8, usize, u8); 3] = [(5, 167, 18), (5, 168, 18), (3, 167, 20)];

fn refuses_opening(rt: &impl Abort, order: u8, words: usize, due: u8) -> Result<(), Fail> {
    let field = Prime::new(order)?;
    let code = small(20);
    let mut area = [7u16; WORDS];
    assert!(rt; words <= 168);
    let why = open(&field, &code, &mut area[0..words])
        .err()
        .expect(rt, "opened");
    assert_eq!(rt; why.number(), due);
    assert_eq!(rt; area, [7u16; WORDS]);
    Ok(())
}

#[test]
fn opening(rt: HostRuntime) -> Result<(), Fail> {
    for (order, words, due) in OPENINGS {
        refuses_opening(&rt, order, words, due)?;
    }
    Ok(())
}

// The slip's limit, the area's words, the column, how many values, the refusal.
const LOADINGS: [(u16, usize, u16, usize, u8); 6] = [
    (19, 167, 4, 2, 19),
    (19, 168, 3, 3, 19),
    (20, 167, 4, 2, 20),
    (20, 168, 4, 2, 21),
    (20, 168, 3, 2, 7),
    (20, 168, 3, 4, 7),
];

fn refuses_loading(
    rt: &impl Abort,
    limit: u16,
    words: usize,
    column: u16,
    size: usize,
    due: u8,
) -> Result<(), Fail> {
    let mut area = [7u16; WORDS];
    let slip = open(&Prime::new(3)?, &small(limit), &mut area)?;
    area[0] = 5;
    let before = area;
    assert!(rt; words <= 168 && size <= 4);
    let why = load(
        &small(20),
        &slip,
        &mut area[0..words],
        column,
        &[3, 1, 4, 1][0..size],
    )
    .expect_err(rt, "loaded");
    assert_eq!(rt; why.number(), due);
    assert_eq!(rt; area, before);
    Ok(())
}

#[test]
fn loading(rt: HostRuntime) -> Result<(), Fail> {
    for (limit, words, column, size, due) in LOADINGS {
        refuses_loading(&rt, limit, words, column, size, due)?;
    }
    Ok(())
}

// The slip's limit, the area's words, the last channel cost, the refusal.
const STARTINGS: [(u16, usize, u16, u8); 4] = [
    (19, 167, 32, 19),
    (19, 168, 31, 19),
    (20, 167, 32, 20),
    (20, 168, 32, 22),
];

// The slip that a refused start gives back.
fn not_started(
    rt: &impl Abort,
    code: &Code,
    slip: LoadingSlip,
    area: &mut [u16],
    due: u8,
) -> LoadingSlip {
    let back = start(code, slip, area).err().expect(rt, "started");
    assert_eq!(rt; back.refusal.number(), due);
    back.slip
}

// The slip that comes back starts its own code's frame.
fn refuses_starting(
    rt: &impl Abort,
    limit: u16,
    words: usize,
    cost: u16,
    due: u8,
) -> Result<(), Fail> {
    let mut area = [7u16; WORDS];
    let slip = open(&Prime::new(3)?, &small(limit), &mut area)?;
    area[11] = cost;
    let before = area;
    assert!(rt; words <= 168);
    let slip = not_started(rt, &small(20), slip, &mut area[0..words], due);
    assert_eq!(rt; area, before);
    area[11] = 31;
    let _ = start(&small(limit), slip, &mut area).map_err(|back| back.refusal)?;
    Ok(())
}

#[test]
fn starting(rt: HostRuntime) -> Result<(), Fail> {
    for (limit, words, cost, due) in STARTINGS {
        refuses_starting(&rt, limit, words, cost, due)?;
    }
    Ok(())
}

// The field's order, the slip's limit, the area's words, the last channel and the last to-check cost, the refusal.
const ROUNDS: [(u8, u16, usize, u16, u16, u8); 7] = [
    (5, 19, 167, 32, 32, 18),
    (5, 20, 168, 31, 31, 18),
    (3, 19, 167, 32, 32, 19),
    (3, 19, 168, 31, 31, 19),
    (3, 20, 167, 32, 32, 20),
    (3, 20, 168, 32, 31, 22),
    (3, 20, 168, 31, 32, 22),
];

// A refused round counts no round.
fn not_made<F: Field>(
    rt: &impl Abort,
    field: &F,
    code: &Code,
    slip: &mut RunningSlip,
    area: &mut [u16],
    due: u8,
) {
    let why = round(field, &Full, code, slip, area).expect_err(rt, "made");
    assert_eq!(rt; why.number(), due);
}

// A round that is granted tells this number of rounds.
fn made<F: Field>(
    rt: &impl Abort,
    field: &F,
    code: &Code,
    slip: &mut RunningSlip,
    area: &mut [u16],
    due: u16,
) -> Result<(), Fail> {
    let told = round(field, &Full, code, slip, area)?;
    assert_eq!(rt; told.rounds, due);
    Ok(())
}

fn refuses_round(
    rt: &impl Abort,
    order: u8,
    limit: u16,
    words: usize,
    channel: u16,
    to: u16,
    due: u8,
) -> Result<(), Fail> {
    let field = Prime::new(3)?;
    let mut area = [7u16; WORDS];
    let mut slip = started(&field, &small(limit), &mut area)?;
    area[11] = channel;
    area[41] = to;
    let before = area;
    assert!(rt; words <= 168);
    not_made(
        rt,
        &Prime::new(order)?,
        &small(20),
        &mut slip,
        &mut area[0..words],
        due,
    );
    assert_eq!(rt; area, before);
    area[11] = 31;
    area[41] = 31;
    made(rt, &field, &small(limit), &mut slip, &mut area, 1)
}

#[test]
fn making_rounds(rt: HostRuntime) -> Result<(), Fail> {
    for (order, limit, words, channel, to, due) in ROUNDS {
        refuses_round(&rt, order, limit, words, channel, to, due)?;
    }
    Ok(())
}

// A code with the limit 1 makes one round.
#[test]
fn passing_the_limit(rt: HostRuntime) -> Result<(), Fail> {
    let field = Prime::new(3)?;
    let code = small(1);
    let mut area = [7u16; WORDS];
    let mut slip = started(&field, &code, &mut area)?;
    made(&rt, &field, &code, &mut slip, &mut area, 1)?;
    let before = area;
    not_made(&rt, &field, &code, &mut slip, &mut area, 23);
    assert_eq!(rt; area, before);
    Ok(())
}

// The slip's limit, the area's words, the column, the target's size, the refusal.
const READINGS: [(u16, usize, u16, usize, u8); 6] = [
    (19, 167, 4, 2, 19),
    (19, 168, 3, 3, 19),
    (20, 167, 4, 2, 20),
    (20, 168, 4, 2, 21),
    (20, 168, 3, 2, 7),
    (20, 168, 3, 4, 7),
];

fn refuses_reading(
    rt: &impl Abort,
    limit: u16,
    words: usize,
    column: u16,
    size: usize,
    due: u8,
) -> Result<(), Fail> {
    let mut area = [7u16; WORDS];
    let slip = started(&Prime::new(3)?, &small(limit), &mut area)?;
    let before = area;
    let mut target = [9u16; 4];
    assert!(rt; words <= 168 && size <= 4);
    let why = read(
        &small(20),
        &slip,
        &area[0..words],
        column,
        &mut target[0..size],
    )
    .expect_err(rt, "read");
    assert_eq!(rt; why.number(), due);
    assert_eq!(rt; area, before);
    assert_eq!(rt; target, [9; 4]);
    Ok(())
}

#[test]
fn reading(rt: HostRuntime) -> Result<(), Fail> {
    for (limit, words, column, size, due) in READINGS {
        refuses_reading(&rt, limit, words, column, size, due)?;
    }
    Ok(())
}

// The field's order, the slip's limit, the area's words, the word's size, the refusal. A row fails throughout.
const CONCLUDINGS: [(u8, u16, usize, usize, u8); 8] = [
    (5, 19, 167, 3, 18),
    (5, 20, 168, 4, 18),
    (3, 19, 167, 3, 19),
    (3, 19, 168, 4, 19),
    (3, 20, 167, 3, 20),
    (3, 20, 168, 3, 7),
    (3, 20, 168, 5, 7),
    (3, 20, 168, 4, 24),
];

// The slip that comes back makes its first round.
fn refuses_concluding(
    rt: &impl Abort,
    order: u8,
    limit: u16,
    words: usize,
    size: usize,
    due: u8,
) -> Result<(), Fail> {
    let field = Prime::new(3)?;
    let mut area = [7u16; WORDS];
    let slip = started(&field, &small(limit), &mut area)?;
    let before = area;
    let mut word = [9u8; 5];
    assert!(rt; words <= 168 && size <= 5);
    let mut slip = not_concluded(
        rt,
        &Prime::new(order)?,
        &small(20),
        slip,
        &area[0..words],
        &mut word[0..size],
        due,
    );
    assert_eq!(rt; area, before);
    assert_eq!(rt; word, [9; 5]);
    made(rt, &field, &small(limit), &mut slip, &mut area, 1)
}

#[test]
fn concluding(rt: HostRuntime) -> Result<(), Fail> {
    for (order, limit, words, size, due) in CONCLUDINGS {
        refuses_concluding(&rt, order, limit, words, size, due)?;
    }
    Ok(())
}

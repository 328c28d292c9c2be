use code::code::Code;
use code::code::admit::admit;
use code::table::{Edge, Entry, Header};
use field::Field;
use frame::{RunningSlip, conclude, load, open, start};
use std::process::Abort;
use std::test::Fail;

// The words that the small code asks for.
pub const WORDS: usize = 168;

// Stays (plain): a table that is lent for good has a constant value, which calls no function, so each line is written out.
static EDGES: [Edge; 6] = [
    Edge {
        row: 0,
        column: 0,
        coefficient: 1,
    },
    Edge {
        row: 0,
        column: 1,
        coefficient: 1,
    },
    Edge {
        row: 0,
        column: 2,
        coefficient: 1,
    },
    Edge {
        row: 1,
        column: 1,
        coefficient: 1,
    },
    Edge {
        row: 1,
        column: 2,
        coefficient: 2,
    },
    Edge {
        row: 1,
        column: 3,
        coefficient: 1,
    },
];

static ENTRIES: [Entry; 6] = [
    Entry { column: 0, row: 0 },
    Entry { column: 1, row: 0 },
    Entry { column: 1, row: 1 },
    Entry { column: 2, row: 0 },
    Entry { column: 2, row: 1 },
    Entry { column: 3, row: 1 },
];

const LOADS: [[u16; 3]; 4] = [[0, 5, 9], [4, 0, 7], [0, 6, 8], [0, 3, 10]];

// The small code: four columns and two rows of order 3, with this limit of rounds.
// If it were not admitted, the code of order 2 would stay, and no frame of order 3 would open.
pub fn small(limit: u16) -> Code<'static> {
    let header = Header {
        order: 3,
        columns: 4,
        rows: 2,
        ceiling: 31,
        limit,
    };
    let mut code = Code::builtin();
    let _ = admit(header, &EDGES, &ENTRIES, &mut code);
    code
}

// Opens a frame of the small code, loads its columns and starts.
pub fn started<F: Field>(field: &F, code: &Code, area: &mut [u16]) -> Result<RunningSlip, Fail> {
    let slip = open(field, code, area)?;
    for (column, costs) in LOADS.iter().enumerate() {
        load(code, &slip, area, column as u16, costs)?;
    }
    Ok(start(code, slip, area).map_err(|back| back.refusal)?)
}

// Stays (plain): here and in the other files, the code, the area and the slip go to each call by themselves, as any caller passes them.
// The slip that a refused conclude gives back.
pub fn not_concluded<F: Field>(
    rt: &impl Abort,
    field: &F,
    code: &Code,
    slip: RunningSlip,
    area: &[u16],
    word: &mut [u8],
    due: u8,
) -> RunningSlip {
    let back = conclude(field, code, slip, area, word).expect_err(rt, "concluded");
    assert_eq!(rt; back.refusal.number(), due);
    back.slip
}

// The word is all 0, after so many rounds.
pub fn concludes<F: Field>(
    rt: &impl Abort,
    field: &F,
    code: &Code,
    slip: RunningSlip,
    area: &[u16],
    word: &mut [u8],
    rounds: u16,
) -> Result<(), Fail> {
    let made = conclude(field, code, slip, area, word).map_err(|back| back.refusal)?;
    assert_eq!(rt; made, rounds);
    assert!(rt; word.iter().all(|symbol| *symbol == 0));
    Ok(())
}

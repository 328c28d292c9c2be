#![tactic(auto)]

use code::code::Code;
use code::code::admit::admit;
use code::table::{Edge, Entry, Header};
use frame::{LoadingSlip, RunningSlip, conclude, load, open, read, round, start};
use joiner::Selective;
use prime::Prime;
use std::io;

// The small code of the worked examples: two rows over four columns, of order 3.
// Stays (plain): a table that is lent for good has a constant value, which calls no function, so each line is written out; the tests'
// crate has the same table, and a program lends its own.
static EDGES: [Edge; 6] = [
    Edge {
        row: 0,
        column: 0,
        coefficient: 1,
    },
    Edge {
        row: 0,
        column: 1,
        coefficient: 1,
    },
    Edge {
        row: 0,
        column: 2,
        coefficient: 1,
    },
    Edge {
        row: 1,
        column: 1,
        coefficient: 1,
    },
    Edge {
        row: 1,
        column: 2,
        coefficient: 2,
    },
    Edge {
        row: 1,
        column: 3,
        coefficient: 1,
    },
];

static ENTRIES: [Entry; 6] = [
    Entry { column: 0, row: 0 },
    Entry { column: 1, row: 0 },
    Entry { column: 1, row: 1 },
    Entry { column: 2, row: 0 },
    Entry { column: 2, row: 1 },
    Entry { column: 3, row: 1 },
];

static COSTS: [[u16; 3]; 4] = [[0, 5, 9], [4, 0, 7], [0, 6, 8], [0, 3, 10]];

// Loads each column's costs.
fn load_all(code: &Code, slip: &LoadingSlip, area: &mut [u16]) {
    for (column, costs) in COSTS.iter().enumerate() {
        let _ = load(code, slip, area, column as u16, costs);
    }
}

// Prints each column's decided symbol and its distances.
// Stays (plain): a type with a printed form of its own would hold these five numbers for this one line.
fn print_columns(
    rt: &HostRuntime,
    code: &Code,
    slip: &RunningSlip,
    area: &[u16],
) -> io::Result<()> {
    for column in 0..code.header().columns {
        let mut distances = [0u16; 3];
        if let Ok(symbol) = read(code, slip, area, column, &mut distances) {
            let [zero, one, two] = distances;
            println!(rt; "column {column}: {symbol} at {zero} {one} {two}")?;
        }
    }
    Ok(())
}

// Decodes one frame, by hand: open, load, start, one round, read, conclude.
// Stays (plain): a refused step prints its own line and ends the program well. An error type for `?` would hold the same texts far from
// their steps, and `main` would have to tell them from a failed write again.
fn main(rt: HostRuntime) -> io::Result<()> {
    let mut code = Code::builtin();
    let header = Header {
        order: 3,
        columns: 4,
        rows: 2,
        ceiling: 31,
        limit: 20,
    };
    let Ok(field) = Prime::new(3) else {
        return println!(rt; "no field");
    };
    let Ok(()) = admit(header, &EDGES, &ENTRIES, &mut code) else {
        return println!(rt; "no code");
    };
    let mut area = [0u16; 168];
    let Ok(slip) = open(&field, &code, &mut area) else {
        return println!(rt; "not opened");
    };
    load_all(&code, &slip, &mut area);
    let Ok(mut running) = start(&code, slip, &mut area) else {
        return println!(rt; "not started");
    };
    let mut other = [0u16; 168];
    let Ok(_next) = open(&field, &code, &mut other) else {
        return println!(rt; "not opened");
    };
    let Ok(told) = round(&field, &Selective, &code, &mut running, &mut area) else {
        return println!(rt; "no round");
    };
    println!(rt;
        "round {}: {} rows fail, {} pairs",
        told.rounds, told.failing, told.pairs
    )?;
    print_columns(&rt, &code, &running, &area)?;
    let mut word = [0u8; 4];
    match conclude(&field, &code, running, &area, &mut word) {
        Ok(rounds) => println!(rt;
            "word {} {} {} {} after {} rounds",
            word[0], word[1], word[2], word[3], rounds
        ),
        Err(_) => println!(rt; "a row fails"),
    }
}

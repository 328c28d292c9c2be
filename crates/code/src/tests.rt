ghost use Rattle.std.specs.Prelude.{◌<◌};

use crate::code::Code;
use crate::code::admit::{admit, fault_of};
use crate::fault::CodeFault;
use crate::table::{Edge, Entry, Header};

const HEADER: Header = Header {
    order: 3,
    columns: 4,
    rows: 2,
    ceiling: 31,
    limit: 20,
};

const EDGES: [Edge; 6] = [
    Edge {
        row: 0,
        column: 0,
        coefficient: 1,
    },
    Edge {
        row: 0,
        column: 1,
        coefficient: 1,
    },
    Edge {
        row: 0,
        column: 2,
        coefficient: 1,
    },
    Edge {
        row: 1,
        column: 1,
        coefficient: 1,
    },
    Edge {
        row: 1,
        column: 2,
        coefficient: 2,
    },
    Edge {
        row: 1,
        column: 3,
        coefficient: 1,
    },
];

const ENTRIES: [Entry; 6] = [
    Entry { column: 0, row: 0 },
    Entry { column: 1, row: 0 },
    Entry { column: 1, row: 1 },
    Entry { column: 2, row: 0 },
    Entry { column: 2, row: 1 },
    Entry { column: 3, row: 1 },
];

// The fault of the example with another edge, and with another entry.
fn with_edge(i: usize, edge: Edge) -> Option<CodeFault>
    requires { i < 6 }
{
    let mut edges = EDGES;
    edges[i] = edge;
    fault_of(HEADER, &edges, &ENTRIES)
}

fn with_entry(k: usize, entry: Entry) -> Option<CodeFault>
    requires { k < 6 }
{
    let mut entries = ENTRIES;
    entries[k] = entry;
    fault_of(HEADER, &EDGES, &entries)
}

#[test]
fn each_fault_has_its_place(rt: HostRuntime) {
    let edge = EDGES[1];
    let entry = ENTRIES[1];
    let far = Header {
        columns: 2,
        ..HEADER
    };
    assert_eq!(rt;
        fault_of(far, &EDGES, &ENTRIES),
        Some(CodeFault::OutOfRange(0))
    );
    assert_eq!(rt;
        with_edge(
            4,
            Edge {
                coefficient: 3,
                ..edge
            }
        ),
        Some(CodeFault::OutOfRange(4))
    );
    assert_eq!(rt;
        with_entry(3, Entry { column: 4, row: 0 }),
        Some(CodeFault::OutOfRange(9))
    );
    assert_eq!(rt; with_edge(2, edge), Some(CodeFault::NotRising(2)));
    assert_eq!(rt; with_entry(2, entry), Some(CodeFault::NotRising(8)));
    assert_eq!(rt;
        fault_of(HEADER, &EDGES[0..4], &ENTRIES),
        Some(CodeFault::Degree(1))
    );
    assert_eq!(rt;
        fault_of(HEADER, &EDGES[0..5], &ENTRIES),
        Some(CodeFault::Degree(5))
    );
    assert_eq!(rt;
        with_entry(1, Entry { column: 0, row: 1 }),
        Some(CodeFault::Unmatched(1))
    );
    assert_eq!(rt;
        fault_of(HEADER, &EDGES, &ENTRIES[0..5]),
        Some(CodeFault::Unmatched(5))
    );
}

#[test]
fn the_example_is_admitted(rt: HostRuntime) {
    let mut code = Code::builtin();
    assert_eq!(rt;
        admit(HEADER, &EDGES, &ENTRIES[0..5], &mut code),
        Err(CodeFault::Unmatched(5))
    );
    assert_eq!(rt; code.header().order, 2);
    assert_eq!(rt; admit(HEADER, &EDGES, &ENTRIES, &mut code), Ok(()));
    assert_eq!(rt; code.header().order, 3);
    assert_eq!(rt; code.edges().len(), 6);
    assert_eq!(rt; code.entries().len(), 6);
}

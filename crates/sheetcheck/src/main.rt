#![tactic(auto)]

use code::table::{Edge, Entry};
use sheet::read::read;
use std::io;
use std::io::Read;

// Tells whether standard input is the sheet of a code: `ok` and its numbers, or `no` and the fault.
fn main(rt: HostRuntime) -> io::Result<()> {
    let mut text = Vec::new(rt.alloc());
    let _ = rt.stdin().read_to_end(&mut text)?;
    let mut edges = [Edge {
        row: 0,
        column: 0,
        coefficient: 0,
    }; 1024];
    let mut entries = [Entry { column: 0, row: 0 }; 1024];
    match read(text.as_slice(), &mut edges, &mut entries) {
        Ok(numbers) => println!(rt; "ok\t{numbers}"),
        Err(fault) => println!(rt; "no\t{fault}"),
    }
}

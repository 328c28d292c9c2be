// Runs test vectors: each line of standard input is a call of the library, and each call's answer is printed as one line.
#![tactic(auto)]

use std::io;
use std::io::BufReader;

mod calls;
mod coding;
mod frames;
mod hand;
mod joining;
mod lines;
mod lists;
mod printing;
mod reading;
mod replies;
mod sheets;

use hand::Hand;
use lines::{content, take_line};
use printing::print;

// Answers line by line until the input ends.
fn run(rt: &HostRuntime) -> io::Result<()> {
    let mut input = BufReader::new(rt.alloc(), rt.stdin())?;
    let mut hand = Hand::empty(rt.alloc());
    let mut line = Vec::new(rt.alloc());
    // Stays (rule): a `while` over a stream cannot be proved to end, and without a `Wait` bound every loop must.
    for _ in 0..u64::MAX {
        if !take_line(&mut input, &mut line)? {
            break;
        }
        print(rt, hand.answer(content(line.as_slice()), &mut input))?;
    }
    Ok(())
}

fn main(rt: HostRuntime) -> io::Result<()> {
    run(&rt)
}

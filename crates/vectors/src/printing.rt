// One line for each answer.
use crate::replies::{Reply, Stop};
use std::alloc::AllocError;
use std::io;

// Prints an answer; only want of memory ends the run.
pub fn print(rt: &HostRuntime, reply: Result<Reply, Stop>) -> io::Result<()> {
    match reply {
        Ok(reply) => println!(rt; "{reply}"),
        Err(Stop::Memory) => Err(AllocError.into()),
        Err(stop) => println!(rt; "{stop}"),
    }
}

// The decoder for programs in C or Rust: frames of one code over a binary field, one after another.
#![tactic(auto)]

mod batch;
mod decode;
mod export;

pub use decode::Decoded;
pub use export::{Shape, dizmulec_decode};

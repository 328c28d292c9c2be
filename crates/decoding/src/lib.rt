// Decoding a frame that has begun: rounds until no row fails or the limit is reached, and then conclude.
#![tactic(auto)]

mod decoded;
mod settling;

pub use decoded::{NotDecoded, decode};

// Encoding symbols into the codeword that carries them, and extracting them again: one text for all codes and all fields.
#![tactic(auto)]

mod codes;
mod edges;
mod elimination;
mod encoding;
mod extraction;
mod filling;
mod opening;
mod owners;
mod products;
pub mod refusal;
mod rows;

pub use encoding::encode;
pub use extraction::extract;

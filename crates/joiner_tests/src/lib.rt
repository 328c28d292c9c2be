#![tactic(auto)]

#[cfg(test)]
mod agreement;
mod outcome;
#[cfg(test)]
mod refusals;
mod three;

pub use outcome::{Examples, Outcome};
pub use three::examples;

#![tactic(auto)]

pub mod fault;
mod field;
mod line;
mod number;
mod pieces;
pub mod read;
mod token;

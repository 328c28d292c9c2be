#![tactic(auto)]

pub mod code;
mod degrees;
pub mod fault;
pub mod numbers;
mod order;
mod pairs;
mod ranges;
mod record;
pub mod table;
#[cfg(test)]
mod tests;

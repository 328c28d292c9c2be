// Binary fields, of order 2 to 64, over polynomials with coefficients 0 and 1.
#![tactic(auto)]

mod codes;
mod polynomial;
mod rule;
#[cfg(test)]
mod tests;

pub use codes::Binary;

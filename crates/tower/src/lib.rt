#![tactic(auto)]

mod base;
mod extension;

pub use extension::{Tower, make_tower};

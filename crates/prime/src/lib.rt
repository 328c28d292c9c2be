#![tactic(auto)]

mod residues;

pub use residues::Prime;

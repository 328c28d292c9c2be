#![tactic(auto)]

mod floats;
mod names;
mod numbers;
mod pieces;
mod samples;
mod written;

pub use names::is_name;
pub use numbers::number;
pub use pieces::Parts;
pub use written::Written;

#![tactic(auto)]

mod around;
mod blocks;
mod body;
mod checks;
mod codes;
mod concluding;
mod costs;
mod decide;
mod find;
mod loading;
mod lows;
mod opening;
mod reading;
mod rounding;
mod row;
mod rows;
mod slip;
mod spread;
mod starting;
mod step;
mod sums;
mod sweeps;
mod symbols;
mod within;
mod words;

pub use concluding::conclude;
pub use due::{FrameRefusal, Told};
pub use loading::load;
pub use opening::open;
pub use reading::read;
pub use rounding::round;
pub use slip::{LoadingSlip, NotConcluded, NotStarted, RunningSlip};
pub use starting::start;

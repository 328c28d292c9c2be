#![tactic(auto)]

mod chosen;
mod combine;
mod costs;
mod entry;
mod full;
mod joiner;
mod level;
mod operands;
mod refusal;
mod selective;
mod whole;

pub use full::Full;
pub use joiner::Joiner;
pub use level::enough;
pub use refusal::JoinRefusal;
pub use selective::Selective;

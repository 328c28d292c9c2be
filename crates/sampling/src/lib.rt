#![tactic(auto)]

mod costs;
mod level;
mod receiver;
mod refusal;
mod samples;
mod shares;

pub use costs::channel_costs;
pub use receiver::Settings;
pub use refusal::SampleRefusal;
pub use samples::Sample;

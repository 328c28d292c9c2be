#![tactic(auto)]

mod any;
mod written;

pub use any::AnyField;
pub use written::{FieldFault, read_field};

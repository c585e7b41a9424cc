// The faults of one sequence, noted in a lent list behind those that came before.
#![tactic(auto)]

mod list;
mod sequence;

pub use list::{FaultList, RECORD, answered, refused};

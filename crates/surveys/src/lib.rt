// Which blocks do not name their place: the survey of a frame and of a sequence.
#![tactic(auto)]

mod frame;
mod sequence;

pub use frame::survey;
pub use sequence::survey_sequence;

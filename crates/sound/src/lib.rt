// Samples: the numbers of lent slices, the words of audio blocks, and which sample stands where.
#![tactic(auto)]

mod places;
mod range;
mod samples;

pub use places::first_at;
pub use range::all_in_range;
pub use samples::{number_of, sample_of, word_for};

// What is asked of the sequences of a frame. Past a frame's end there are zeros, so that every frame is judged.
#![tactic(auto)]

mod every;
mod read;
mod sequence;
mod subcode;

pub use every::{every_in_half, every_sequence, first_as};
use paper::SubcodeData;
pub use subcode::{group_first, settled, time_first};

// What is asked of a sequence: a flag by its number, an audio channel, a count, a mode, what the subcode says.
#[derive(Clone, Copy)]
pub enum Test {
    Dsf,
    Vs,
    Unflagged(u32),
    AsKeeps(u32),
    CountIs(u32),
    ModeIs(u32),
    Subcode(SubcodeData),
}

// The strict reader: what stands in a frame comes out exactly, or a numbered refusal says why not.
#![tactic(auto)]

mod audio;
mod check;
mod time;
mod video;

pub use audio::read_audio;
pub use check::check_frame;
pub use time::read_time;
pub use video::{macroblock, macroblock_at, macroblock_number};

// A block writer for each section. What does not fit a block is not written.
#![tactic(auto)]

mod audio;
mod header;
mod parts;
mod subcode;
mod vaux;
mod video;

pub use audio::put_audio;
pub use header::put_header;
pub use subcode::put_subcode;
pub use vaux::put_vaux;
pub use video::put_video;

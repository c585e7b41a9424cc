// The writer: each block of the lent frame is filled where it stands, by its section's own writer.
#![tactic(auto)]

mod audio;
mod call;
mod frame;
mod material;
mod sequence;

pub use call::write_frame;

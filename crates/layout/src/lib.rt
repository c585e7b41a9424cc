// The four systems, the 150 places and block IDs: what every crate above reads frames by.
#![tactic(auto)]

mod dif;
mod frame;
mod ids;
mod parts;
mod places;
mod refusals;
mod systems;

pub use dif::DifSequence;
pub use frame::Frame;
pub use ids::{id_bytes, read_block, read_id};
pub use parts::no_part;
pub use places::{entry_at, entry_of, place_in, place_of, printed_places, section_code};
pub use refusals::{number, number_of, system_of_frame};
pub use systems::{
    counts, frame_bytes, half, is_count, macroblocks, positions, rate, sequences, stype, system_of,
};

// The bytes of a block and of a sequence, the places of a sequence, the DIF channels of a frame.
pub const BLOCK: usize = 80;

pub const SEQUENCE: usize = 12000;

pub const PLACES: u32 = 150;

pub const CHANNELS: u32 = 4;

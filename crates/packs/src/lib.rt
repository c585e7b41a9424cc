// Packs by value: what is written, and what is judged.
#![tactic(auto)]

mod aaux;
mod bytes;
mod frame;
mod subcode;
mod time;
mod vaux;

pub use aaux::{aaux_pack, as_at, as_ok, as_pack, count_in, is_mark, mode_in};
pub use bytes::pack_of;
pub use frame::repeated;
pub use subcode::{kind_of, subcode_pack};
pub use time::{group_ok, time_ok, time_taken};
pub use vaux::{vaux_pack, vs_at, vs_ok};

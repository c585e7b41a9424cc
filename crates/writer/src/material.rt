// What the sequences of a frame, and the banks of a sequence, are written from.
ghost use Rattle.std.specs.Prelude.{◌≡◌, ◌≤◌, ◌*◌, true, length};
ghost use Rattle.rules_format.specs.Systems.{half_of, is_count, macroblocks_of};

use paper::{Pack, Repeated, System};

// What every sequence of a frame is written from; its sound is lent audio channel after audio channel.
#[derive(Clone, Copy)]
pub(crate) struct Material<'a> {
    pub(crate) system: System,
    pub(crate) repeated: Repeated,
    pub(crate) count: u32,
    pub(crate) sound: &'a [i32],
    pub(crate) macroblocks: &'a [u8],
    ghost counts: { is_count system count ≡ true },
    ghost sounds: { length sound.now ≡ 8 * count },
    ghost pictures: { length macroblocks.now ≡ 77 * macroblocks_of system },
}

// What every bank of a sequence is written from: the AS and the samples of its audio channel, the ASC, and the macroblocks.
#[derive(Clone, Copy)]
pub(crate) struct Bank<'a> {
    pub(crate) system: System,
    pub(crate) source: Pack,
    pub(crate) asc: Pack,
    pub(crate) samples: &'a [i32],
    pub(crate) macroblocks: &'a [u8],
    ghost turns: { 315 * half_of system ≤ length samples.now },
    ghost pictures: { length macroblocks.now ≡ 77 * macroblocks_of system },
}

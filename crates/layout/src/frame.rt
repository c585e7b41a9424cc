// A frame of a known system.
ghost use Rattle.std.specs.Prelude.{◌≡◌, ◌*◌, length};
ghost use Rattle.rules_format.specs.Systems.{sequences_of};

use paper::System;

// The bytes of a frame, of its system's length.
#[derive(Clone, Copy)]
pub struct Frame<'a> {
    pub system: System,
    pub bytes: &'a [u8],
    pub ghost whole: { length bytes.now ≡ 48000 * sequences_of system },
}

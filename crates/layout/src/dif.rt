// The sequences of a frame, by DIF channel.
ghost use Rattle.std.specs.Prelude.{◌≡◌, ◌+◌, ◌*◌};
ghost use Rattle.rules_format.specs.Systems.{sequences_of};

use crate::{SEQUENCE, systems};
use paper::System;

// A sequence of a frame: its DIF channel, and its number there.
#[derive(Clone, Copy, PartialEq, Eq)]
pub struct DifSequence {
    pub channel: u32,
    pub sequence: u32,
}

impl DifSequence {
    // Its first byte in a frame of the system.
    pub fn start(self, y: System) -> usize
        ensures { result ≡ (sequences_of y * self.channel + self.sequence) * 12000 }
    {
        let n = systems::sequences(y) as usize;
        (n * self.channel as usize + self.sequence as usize) * SEQUENCE
    }
}

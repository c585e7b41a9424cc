// A sequence of a frame, and what its blocks say.
ghost use Rattle.std.specs.Prelude.{◌≡◌, ◌<◌, get_or};
ghost use Rattle.rules_packs.specs.Packs.{pack_in};
ghost use Rattle.rules_format.specs.Blocks.{block_in, sequence_at};
ghost use Rattle.rules_reads.specs.Check.{header_in, vs_in};
ghost use Rattle.rules_reads.specs.Audio.{as_in};
ghost use Rattle.rules_reads.specs.Time.{ssyb_in};
ghost use Rattle.judges.specs.Asked.{sequence_from, Low, InBlock};

use layout::{BLOCK, DifSequence};
use paper::{BlockNumber, Pack, Place, Section, System};

// A sequence of a system's frame by its number and its first byte. Past the frame's end there are zeros, so that every frame is
// judged.
#[derive(Clone, Copy)]
pub(crate) struct Sequence<'a> {
    pub(crate) system: System,
    pub(crate) number: u32,
    frame: &'a [u8],
    start: usize,
    ghost low: { Low start },
}

impl<'a> Sequence<'a> {
    pub(crate) fn of(system: System, frame: &'a [u8], dif: DifSequence) -> Sequence<'a>
        ensures system { result.system ≡ system }
        ensures number { result.number ≡ dif.sequence }
        ensures bytes { sequence_from result.frame.now result.start ≡ sequence_at system frame.now dif.channel dif.sequence }
    {
        Sequence {
            system,
            number: dif.sequence,
            frame,
            start: dif.start(system),
        }
    }

    // Byte i of the header; a block has no byte past its 80.
    pub(crate) fn header_byte(&self, i: usize) -> u8
        ensures { result ≡ get_or (header_in (sequence_from self.now.frame.now self.now.start)) i 0 }
    {
        let p = layout::place_in(Section::Header, BlockNumber(0));
        if i < BLOCK {
            return base::byte_at(self.frame, self.start + p.0 as usize * BLOCK + i);
        }
        0
    }

    // The pack from byte i on of the block at place p.
    fn pack_in(&self, p: Place, i: u32) -> Pack
        requires { InBlock p i }
        ensures { result ≡ pack_in (block_in (sequence_from self.now.frame.now self.now.start) p.0) i }
    {
        let from = self.start + p.0 as usize * BLOCK + i as usize;
        Pack {
            pc0: base::byte_at(self.frame, from),
            pc1: base::byte_at(self.frame, from + 1),
            pc2: base::byte_at(self.frame, from + 2),
            pc3: base::byte_at(self.frame, from + 3),
            pc4: base::byte_at(self.frame, from + 4),
        }
    }

    // The VS.
    pub(crate) fn vs(&self) -> Pack
        ensures { result ≡ vs_in self.now.number (sequence_from self.now.frame.now self.now.start) }
    {
        let k = packs::vs_at(self.number);
        let p = layout::place_in(Section::Vaux, BlockNumber(k / 15));
        self.pack_in(p, 3 + 5 * (k % 15))
    }

    // The AS.
    pub(crate) fn source(&self) -> Pack
        ensures { result ≡ as_in self.now.number (sequence_from self.now.frame.now self.now.start) }
    {
        let a = packs::as_at(self.number);
        let p = layout::place_in(Section::Audio, BlockNumber(a));
        self.pack_in(p, 3)
    }

    // The pack of SSYB k of the twelve.
    pub(crate) fn ssyb(&self, k: u32) -> Pack
        requires { k < 12 }
        ensures { result ≡ ssyb_in k (sequence_from self.now.frame.now self.now.start) }
    {
        let p = layout::place_in(Section::Subcode, BlockNumber(k / 6));
        self.pack_in(p, 6 + 8 * (k % 6))
    }
}

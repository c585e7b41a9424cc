// The time code and the binary group of a frame, and the packs that must agree with them.
ghost use Rattle.std.specs.Prelude.{◌≡◌, ◌<◌};
ghost use Rattle.rules_reads.specs.Time.{time_first, group_first, settled, pack_agrees, ssyb_in, subcode_agrees};
ghost use Rattle.judges.specs.Asked.{sequence_from};

use crate::read::Sequence;
use layout::DifSequence;
use paper::{Pack, SubcodeData, SubcodePack, System};

const FIRST: DifSequence = DifSequence {
    channel: 0,
    sequence: 0,
};

// The time code of SSYB 3 of DIF channel 0, sequence 0.
pub fn time_first(y: System, frame: &[u8]) -> Pack
    ensures { result ≡ time_first y frame.now }
{
    Sequence::of(y, frame, FIRST).ssyb(3)
}

// The binary group of SSYB 4 of DIF channel 0, sequence 0.
pub fn group_first(y: System, frame: &[u8]) -> Pack
    ensures { result ≡ group_first y frame.now }
{
    Sequence::of(y, frame, FIRST).ssyb(4)
}

// A time code as it is compared and answered: at 50 Hz bit 6 of PC1 is 1.
pub fn settled(y: System, p: Pack) -> Pack
    ensures { result ≡ settled y p }
{
    if layout::rate(y) == 1 {
        Pack {
            pc1: p.pc1 / 128 * 128 + 64 + p.pc1 % 64,
            ..p
        }
    } else {
        p
    }
}

impl Sequence<'_> {
    // The pack of SSYB k is the one that its position carries. A pack that is not asked is not read.
    fn pack_agrees(&self, k: u32, said: SubcodeData, kind: SubcodePack) -> bool
        requires { k < 12 }
        ensures { result ≡ pack_agrees self.now.system said.time said.group kind (ssyb_in k (sequence_from self.now.frame.now self.now.start)) }
    {
        match kind {
            SubcodePack::TimeCode => {
                settled(self.system, self.ssyb(k)) == settled(self.system, said.time)
            }
            SubcodePack::BinaryGroup => {
                let p = self.ssyb(k);
                p == said.group
            }
            SubcodePack::NoPack => true,
        }
    }

    // The packs of the sequence agree (27).
    pub(crate) fn subcode_agrees(&self, said: SubcodeData) -> bool
        ensures { result ≡ subcode_agrees self.now.system said.time said.group self.now.number (sequence_from self.now.frame.now self.now.start) }
    {
        let first = self.number < layout::half(self.system);
        let mut good = true;
        for k in 0..12 {
            let kind = packs::kind_of(first, k);
            good = self.pack_agrees(k, said, kind) & good;
        }
        good
    }
}

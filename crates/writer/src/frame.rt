// The sequences of a DIF channel, and the DIF channels of a frame.
ghost use Rattle.std.specs.Prelude.{◌≡◌, ◌*◌, length};
ghost use Rattle.base.specs.Run.{run};
ghost use Rattle.rules_format.specs.Systems.{sequences_of};
ghost use Rattle.rules_writes.specs.Written.{material_of, written_channel};
ghost use Rattle.writer.specs.Asked.{ChannelPartAsked};

use crate::material::Material;
use crate::sequence;
use layout::{CHANNELS, DifSequence, SEQUENCE};

fn write_channel(part: &mut [u8], m: &Material, h: u32)
    requires { ChannelPartAsked part.old m.now.system h }
    ensures { part.new ≡ written_channel m.now.system (material_of m.now.repeated m.now.count m.now.sound.now m.now.macroblocks.now) h }
{
    for q in 0..layout::sequences(m.system) {
        let at = (q as usize) * SEQUENCE;
        let to = at + SEQUENCE;
        let dif = DifSequence {
            channel: h,
            sequence: q,
        };
        sequence::write_sequence(&mut part[at..to], m, dif);
    }
}

pub(crate) fn fill_frame(frame: &mut [u8], m: &Material)
    requires { length frame.old ≡ 48000 * sequences_of m.now.system }
    ensures { frame.new ≡ run (written_channel m.now.system (material_of m.now.repeated m.now.count m.now.sound.now m.now.macroblocks.now)) 4 }
{
    let size = (layout::sequences(m.system) as usize) * SEQUENCE;
    for h in 0..CHANNELS {
        let at = (h as usize) * size;
        let to = at + size;
        write_channel(&mut frame[at..to], m, h);
    }
}

// The video blocks: 77 bytes of a macroblock, or none.
ghost use Rattle.std.specs.Prelude.{◌≡◌, ◌++◌, length};
ghost use Rattle.base.specs.Pick.{pick};
ghost use Rattle.rules_format.specs.Ids.{id_bytes};
ghost use Rattle.rules_writes.specs.Written.{video_bytes};
ghost use Rattle.blocks.specs.Asked.{VideoAsked};
ghost use Rattle.blocks.specs.Fits.{video_fits};

use crate::parts;
use layout::BLOCK;
use paper::{BlockId, Slot, System};

fn write_video(block: &mut [u8], id: BlockId, y: System, macroblocks: &[u8])
    requires { VideoAsked block.old y macroblocks.now }
    ensures { block.new ≡ id_bytes id ++ video_bytes y macroblocks.now id.channel id.dseq id.dbn.0 }
{
    parts::put_id(&mut block[0..3], id);
    let slot = Slot {
        channel: id.channel,
        sequence: id.dseq,
        video: id.dbn,
    };
    match picture::carried(y, slot) {
        Some(b) => {
            let at = 77 * (b as usize);
            let to = at + 77;
            block[3..BLOCK].copy_from_slice(&macroblocks[at..to]);
        }
        None => base::fill(&mut block[3..BLOCK], 0xFF),
    }
}

// What is lent fits the system.
fn video_fits(size: usize, y: System, bytes: usize) -> bool
    ensures { result ≡ video_fits size y bytes }
{
    (size == BLOCK) & (bytes == 77 * (layout::macroblocks(y) as usize))
}

// A video block of any part; one that does not fit stays as it is.
pub fn put_video(block: &mut [u8], id: BlockId, y: System, macroblocks: &[u8])
    ensures { block.new ≡ pick (video_fits (length block.old) y (length macroblocks.now)) (id_bytes id ++ video_bytes y macroblocks.now id.channel id.dseq id.dbn.0) block.old }
{
    let fits = video_fits(block.len(), y, macroblocks.len());
    if fits {
        write_video(block, id, y, macroblocks);
    }
}

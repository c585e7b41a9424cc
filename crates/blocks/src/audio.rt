// The audio blocks: a pack and 36 words.
ghost use Rattle.std.specs.Prelude.{◌≡◌, ◌++◌, length};
ghost use Rattle.base.specs.Pick.{pick};
ghost use Rattle.base.specs.Run.{run};
ghost use Rattle.rules_format.specs.Ids.{id_bytes};
ghost use Rattle.rules_writes.specs.Written.{word_bytes, audio_bytes};
ghost use Rattle.blocks.specs.Asked.{AudioAsked};
ghost use Rattle.blocks.specs.Fits.{audio_fits};

use crate::parts;
use layout::BLOCK;
use paper::{BlockId, BlockNumber, Pack, System};

// The bytes of a block's words.
const WORDS: usize = BLOCK - 8;

// The words of A(a) of sequence q. "Positions from the count on are written 0": the last word alone may be past it.
fn put_words(part: &mut [u8], y: System, samples: &[i32], q: u32, a: BlockNumber)
    requires { AudioAsked part.old 72 y samples.now a.0 }
    ensures { part.new ≡ run (word_bytes y samples.now q a.0) 36 }
{
    base::fill(&mut part[70..72], 0);
    sample_words::put_samples(part, y, samples, q, a);
}

fn write_audio(block: &mut [u8], id: BlockId, y: System, source: Pack, asc: Pack, samples: &[i32])
    requires { AudioAsked block.old 80 y samples.now id.dbn.0 }
    ensures { block.new ≡ id_bytes id ++ audio_bytes y source asc samples.now id.dseq id.dbn.0 }
{
    let q = id.dseq;
    let a = id.dbn;
    parts::put_id(&mut block[0..3], id);
    parts::put_pack(&mut block[3..8], packs::aaux_pack(source, asc, q, a.0));
    put_words(&mut block[8..BLOCK], y, samples, q, a);
}

// An audio block of any part: the AS of its audio channel, the ASC, and the channel's samples. One that does not fit stays as it is.
pub fn put_audio(block: &mut [u8], id: BlockId, y: System, source: Pack, asc: Pack, samples: &[i32])
    ensures { block.new ≡ pick (audio_fits (length block.old) y (length samples.now) id.dbn.0) (id_bytes id ++ audio_bytes y source asc samples.now id.dseq id.dbn.0) block.old }
{
    let fits = (block.len() == BLOCK) & sample_words::words_fit(WORDS, y, samples.len(), id.dbn);
    if fits {
        write_audio(block, id, y, source, asc, samples);
    }
}

// The 150 blocks of a sequence in stream order: H0, SC0, SC1, VA0 to VA2, then nine banks, each an audio block and the fifteen video
// blocks behind it.
ghost use Rattle.std.specs.Prelude.{◌≡◌, List, ◌++◌, ℕ, ◌+◌, ◌*◌, ◌<◌, length, take};
ghost use Rattle.base.specs.Run.{run, Wide};
ghost use Rattle.rules_format.specs.Places.{place, entry_at, place_in, place_for};
ghost use Rattle.rules_format.specs.Ids.{id_of};
ghost use Rattle.rules_packs.specs.Subcode.{is_first, subcode_bytes};
ghost use Rattle.rules_packs.specs.Vaux.{vaux_bytes};
ghost use Rattle.rules_writes.specs.Written.{material_of, written_sequence};
ghost use Rattle.writer.specs.Asked.{PutsBlocks, VideosAsked, BankAsked, SequenceAsked};
ghost use Rattle.writer.specs.Blocks.{first_blocks, video_blocks, head_blocks, bank_blocks};

use crate::audio;
use crate::material::{Bank, Material};
use layout::{BLOCK, DifSequence};
use paper::{BlockId, BlockNumber, Pack, Place, Repeated, Section, SubcodeData, System};

// The bytes of a bank.
const BANK: usize = 16 * BLOCK;

// The first byte of a section, by the place of its first block.
fn start(section: Section) -> usize
    ensures { result ≡ place_in section 0 * 80 }
{
    let p = layout::place_in(section, BlockNumber(0));
    p.0 as usize * BLOCK
}

fn id(dif: DifSequence, section: Section, number: u32) -> BlockId
    ensures { result ≡ id_of dif.channel dif.sequence section number }
{
    BlockId {
        section,
        channel: dif.channel,
        dseq: dif.sequence,
        dbn: BlockNumber(number),
    }
}

// The blocks of a part, one after the other, each by `put`.
fn write_blocks<F: Fn(&mut [u8], u32)>(part: &mut [u8], count: u32, put: F)
    requires long { length part.old ≡ count * 80 }
    requires callable { (block : _) (k : ℕ) → k < count → F.pre put block k }
    ensures { (bytes : ℕ → List ℕ) → Wide 80 bytes → PutsBlocks (F.post put) bytes count → part.new ≡ run bytes count }
{
    for k in 0..count {
        let at = (k as usize) * BLOCK;
        let to = at + BLOCK;
        put(&mut part[at..to], k);
    }
}

// SC0, SC1.
fn write_subcodes(part: &mut [u8], y: System, dif: DifSequence, said: SubcodeData)
    requires { length part.old ≡ 160 }
    ensures { part.new ≡ first_blocks dif.channel dif.sequence Section.Subcode (subcode_bytes (is_first y dif.sequence) said) 2 }
{
    let first = dif.sequence < layout::half(y);
    write_blocks(
        part,
        2,
        |block, k| blocks::put_subcode(block, id(dif, Section::Subcode, k), first, said),
    );
}

// VA0, VA1, VA2.
fn write_vauxes(part: &mut [u8], dif: DifSequence, vs: Pack, vsc: Pack)
    requires { length part.old ≡ 240 }
    ensures { part.new ≡ first_blocks dif.channel dif.sequence Section.Vaux (vaux_bytes vs vsc dif.sequence) 3 }
{
    write_blocks(
        part,
        3,
        |block, k| blocks::put_vaux(block, id(dif, Section::Vaux, k), vs, vsc),
    );
}

// The six blocks before the banks.
fn write_head(part: &mut [u8], y: System, dif: DifSequence, repeated: Repeated)
    requires { length part.old ≡ 480 }
    ensures { part.new ≡ head_blocks y repeated dif.channel dif.sequence }
{
    let subcode = start(Section::Subcode);
    let vaux = start(Section::Vaux);
    let audio = start(Section::Audio);
    blocks::put_header(&mut part[0..subcode], id(dif, Section::Header, 0), y);
    write_subcodes(&mut part[subcode..vaux], y, dif, repeated.subcode);
    write_vauxes(&mut part[vaux..audio], dif, repeated.vs, repeated.vsc);
}

// Fifteen video blocks one after the other, from V(v) on.
fn write_videos(part: &mut [u8], bank: &Bank, dif: DifSequence, v: u32)
    requires { VideosAsked part.old v }
    ensures { part.new ≡ video_blocks bank.now.system bank.now.macroblocks.now dif.channel dif.sequence v }
{
    write_blocks(part, 15, |block, j| {
        blocks::put_video(
            block,
            id(dif, Section::Video, v + j),
            bank.system,
            bank.macroblocks,
        )
    });
}

// The number of the block at the place behind A(a).
fn behind(a: u32) -> u32
    ensures { result ≡ (entry_at (place ((place_for Section.Audio (record { 0 = a })).0 + 1))).number.0 }
{
    let p = layout::place_in(Section::Audio, BlockNumber(a));
    let e = layout::entry_at(Place(p.0 + 1));
    e.number.0
}

// A(a) and the video blocks behind it.
fn write_bank(part: &mut [u8], bank: &Bank, dif: DifSequence, a: u32)
    requires { BankAsked part.old a }
    ensures { part.new ≡ bank_blocks bank.now.system bank.now.source bank.now.asc bank.now.samples.now bank.now.macroblocks.now dif.channel dif.sequence a }
{
    blocks::put_audio(
        &mut part[0..BLOCK],
        id(dif, Section::Audio, a),
        bank.system,
        bank.source,
        bank.asc,
        bank.samples,
    );
    write_videos(&mut part[BLOCK..BANK], bank, dif, behind(a));
}

// The nine banks of a sequence. What comes before A0 stays as it is.
fn write_banks(part: &mut [u8], bank: &Bank, dif: DifSequence)
    requires { length part.old ≡ 12000 }
    ensures { part.new ≡ take 480 part.old ++ run (bank_blocks bank.now.system bank.now.source bank.now.asc bank.now.samples.now bank.now.macroblocks.now dif.channel dif.sequence) 9 }
{
    for a in 0..9 {
        let p = layout::place_in(Section::Audio, BlockNumber(a));
        let at = p.0 as usize * BLOCK;
        let to = at + BANK;
        write_bank(&mut part[at..to], bank, dif, a);
    }
}

pub(crate) fn write_sequence(part: &mut [u8], m: &Material, dif: DifSequence)
    requires { SequenceAsked part.old m.now.system dif.channel dif.sequence }
    ensures { part.new ≡ written_sequence m.now.system (material_of m.now.repeated m.now.count m.now.sound.now m.now.macroblocks.now) dif.channel dif.sequence }
{
    let c = audio::audio_at(layout::half(m.system), dif);
    let head = start(Section::Audio);
    write_head(&mut part[0..head], m.system, dif, m.repeated);
    let bank = Bank {
        system: m.system,
        source: packs::as_pack(m.system, m.count, c),
        asc: m.repeated.asc,
        samples: audio::samples_of(m.sound, c, m.count),
        macroblocks: m.macroblocks,
    };
    write_banks(part, &bank, dif);
}

// The subcode blocks: six SSYBs each.
ghost use Rattle.std.specs.Prelude.{◌≡◌, ◌++◌, length};
ghost use Rattle.base.specs.Pick.{pick};
ghost use Rattle.rules_format.specs.Ids.{id_bytes};
ghost use Rattle.rules_packs.specs.Subcode.{fr_byte, ssyb, ssybs, subcode_bytes};
ghost use Rattle.blocks.specs.Asked.{SsybAsked, SsybsAsked, NumberAsked};
ghost use Rattle.blocks.specs.Fits.{number_fits};

use crate::parts;
use layout::BLOCK;
use paper::{BlockId, BlockNumber, SubcodeData};

// ID0 of an SSYB: FR, and ones.
fn fr_byte(first: bool) -> u8
    ensures { result ≡ fr_byte first }
{
    if first { 0xFF } else { 0x7F }
}

fn put_ssyb(part: &mut [u8], first: bool, said: SubcodeData, k: u32)
    requires { SsybAsked part.old k }
    ensures { part.new ≡ ssyb first said k }
{
    part[0..3].copy_from_slice(&[fr_byte(first), (0xF0 + k) as u8, 0xFF]);
    parts::put_pack(
        &mut part[3..8],
        packs::subcode_pack(packs::kind_of(first, k), said.time, said.group),
    );
}

// The six SSYBs of SC(k).
fn put_ssybs(part: &mut [u8], first: bool, said: SubcodeData, number: BlockNumber)
    requires { SsybsAsked part.old number.0 }
    ensures { part.new ≡ ssybs first said number.0 }
{
    let k = number.0;
    for j in 0..6 {
        let at = (j as usize) * 8;
        let to = at + 8;
        put_ssyb(&mut part[at..to], first, said, 6 * k + j);
    }
}

fn write_subcode(block: &mut [u8], id: BlockId, first: bool, said: SubcodeData)
    requires { NumberAsked block.old id.dbn.0 2 }
    ensures { block.new ≡ id_bytes id ++ subcode_bytes first said id.dbn.0 }
{
    base::fill(block, 0xFF);
    parts::put_id(&mut block[0..3], id);
    put_ssybs(&mut block[3..51], first, said, id.dbn);
}

// A subcode block of any part; one that is no block, or whose number is not below 2, stays as it is.
pub fn put_subcode(block: &mut [u8], id: BlockId, first: bool, said: SubcodeData)
    ensures { block.new ≡ pick (number_fits (length block.old) id.dbn.0 2) (id_bytes id ++ subcode_bytes first said id.dbn.0) block.old }
{
    let fits = (block.len() == BLOCK) & (id.dbn.0 < 2);
    if fits {
        write_subcode(block, id, first, said);
    }
}

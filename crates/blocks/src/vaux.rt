// The VAUX blocks: fifteen packs each.
ghost use Rattle.std.specs.Prelude.{◌≡◌, ◌++◌, length};
ghost use Rattle.base.specs.Pick.{pick};
ghost use Rattle.rules_format.specs.Ids.{id_bytes};
ghost use Rattle.rules_packs.specs.Vaux.{vaux_packs, vaux_bytes};
ghost use Rattle.blocks.specs.Asked.{PacksAsked, NumberAsked};
ghost use Rattle.blocks.specs.Fits.{number_fits};

use crate::parts;
use layout::BLOCK;
use paper::{BlockId, BlockNumber, Pack};

// The fifteen packs of VA(k).
fn put_packs(part: &mut [u8], vs: Pack, vsc: Pack, q: u32, number: BlockNumber)
    requires { PacksAsked part.old number.0 }
    ensures { part.new ≡ vaux_packs vs vsc q number.0 }
{
    let k = number.0;
    for j in 0..15 {
        let at = (j as usize) * 5;
        let to = at + 5;
        parts::put_pack(&mut part[at..to], packs::vaux_pack(vs, vsc, q, 15 * k + j));
    }
}

fn write_vaux(block: &mut [u8], id: BlockId, vs: Pack, vsc: Pack)
    requires { NumberAsked block.old id.dbn.0 3 }
    ensures { block.new ≡ id_bytes id ++ vaux_bytes vs vsc id.dseq id.dbn.0 }
{
    base::fill(block, 0xFF);
    parts::put_id(&mut block[0..3], id);
    put_packs(&mut block[3..78], vs, vsc, id.dseq, id.dbn);
}

// A VAUX block of any part; one that is no block, or whose number is not below 3, stays as it is.
pub fn put_vaux(block: &mut [u8], id: BlockId, vs: Pack, vsc: Pack)
    ensures { block.new ≡ pick (number_fits (length block.old) id.dbn.0 3) (id_bytes id ++ vaux_bytes vs vsc id.dseq id.dbn.0) block.old }
{
    let fits = (block.len() == BLOCK) & (id.dbn.0 < 3);
    if fits {
        write_vaux(block, id, vs, vsc);
    }
}

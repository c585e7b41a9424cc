// Small parts of a block: an ID, a pack. They are stored byte by byte, which is faster than a copy of so few.
ghost use Rattle.std.specs.Prelude.{◌≡◌, length};
ghost use Rattle.rules_format.specs.Ids.{id_bytes};
ghost use Rattle.rules_packs.specs.Packs.{pack_bytes};

use paper::{BlockId, Pack};

pub(crate) fn put_id(part: &mut [u8], id: BlockId)
    requires { length part.old ≡ 3 }
    ensures { part.new ≡ id_bytes id }
{
    let bytes = layout::id_bytes(id);
    part[0] = bytes[0];
    part[1] = bytes[1];
    part[2] = bytes[2];
}

pub(crate) fn put_pack(part: &mut [u8], p: Pack)
    requires { length part.old ≡ 5 }
    ensures { part.new ≡ pack_bytes p }
{
    part[0] = p.pc0;
    part[1] = p.pc1;
    part[2] = p.pc2;
    part[3] = p.pc3;
    part[4] = p.pc4;
}

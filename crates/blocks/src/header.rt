// The header block.
ghost use Rattle.std.specs.Prelude.{◌≡◌, ◌++◌, eqb, length};
ghost use Rattle.base.specs.Pick.{pick};
ghost use Rattle.rules_format.specs.Ids.{id_bytes};
ghost use Rattle.rules_packs.specs.Header.{rate_byte, header_bytes};

use crate::parts;
use layout::BLOCK;
use paper::{BlockId, System};

// Byte 3: DSF, bit 6 zero, and ones.
fn rate_byte(y: System) -> u8
    ensures { result ≡ rate_byte y }
{
    match y {
        System::I60 => 0x3F,
        System::I50 => 0xBF,
        System::P60 => 0x3F,
        System::P50 => 0xBF,
    }
}

fn write_header(block: &mut [u8], id: BlockId, y: System)
    requires { length block.old ≡ 80 }
    ensures { block.new ≡ id_bytes id ++ header_bytes y }
{
    base::fill(block, 0xFF);
    parts::put_id(&mut block[0..3], id);
    block[3..8].copy_from_slice(&[rate_byte(y), 0xFF, 0x7F, 0x7F, 0x7F]);
}

// The header of any part; one that is no block stays as it is.
pub fn put_header(block: &mut [u8], id: BlockId, y: System)
    ensures { block.new ≡ pick (eqb (length block.old) 80) (id_bytes id ++ header_bytes y) block.old }
{
    if block.len() == BLOCK {
        write_header(block, id, y);
    }
}

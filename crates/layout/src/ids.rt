// Block IDs, read and written.
ghost use Rattle.std.specs.Prelude.{◌≡◌};
ghost use Rattle.rules_format.specs.Ids.{channel_of, block_answer, id_bytes};
ghost use Rattle.rules_surveys.specs.ReadId.{IdRead};

use crate::places;
use paper::{BlockId, BlockNumber, IdAnswer, Spare};

// The DIF channel of FSC and FSP.
fn channel(fsc: u32, fsp: u32) -> u32
    ensures { result ≡ channel_of fsc fsp }
{
    if fsp == 1 {
        if fsc == 0 { 0 } else { 1 }
    } else {
        if fsc == 0 { 2 } else { 3 }
    }
}

// The answer to an ID of three bytes.
pub fn read_id(id: &[u8]) -> IdAnswer
    ensures { IdRead id.now result }
{
    if id.len() != 3 {
        return IdAnswer::WrongLength;
    }
    let byte0 = u32::from(id[0]);
    let byte1 = u32::from(id[1]);
    let byte2 = u32::from(id[2]);
    if byte0 / 32 < 5 {
        let named = BlockId {
            section: places::section_of(byte0 / 32),
            channel: channel(byte1 / 8 % 2, byte1 / 4 % 2),
            dseq: byte1 / 16,
            dbn: BlockNumber(byte2),
        };
        let reserved = byte0 / 16 % 2 * 4 + byte1 % 4;
        let spare = Spare {
            arbitrary: byte0 % 16,
            reserved,
        };
        return IdAnswer::Named(named, spare);
    }
    IdAnswer::Reserved
}

// The answer to the ID of a block, its first three bytes.
pub fn read_block(block: &[u8]) -> IdAnswer
    ensures { result ≡ block_answer block.now }
{
    if block.len() < 3 {
        return read_id(block);
    }
    read_id(&block[..3])
}

// The three bytes of an ID, its other bits 1.
pub fn id_bytes(b: BlockId) -> [u8; 3]
    ensures { result ≡ id_bytes b }
{
    let section = b.section;
    let h = b.channel;
    let fsc = h % 2;
    let fsp = 1 - h / 2 % 2;
    let byte0 = places::section_code(section) * 32 + 31;
    let byte1 = b.dseq % 16 * 16 + fsc * 8 + fsp * 4 + 3;
    let byte2 = b.dbn.0 % 256;
    [byte0 as u8, byte1 as u8, byte2 as u8]
}

// The judged bits of a block's ID as one number, those that DIF channel and sequence give, and whether a sequence has those of its
// places.
#![tactic(auto)]

mod clean;

ghost use Rattle.std.specs.Prelude.{◌≡◌, ◌%◌, ◌≤◌, length};
ghost use Rattle.rules_format.specs.Judging.{key_of};
ghost use Rattle.judged_bits.specs.Asked.{Word, JudgedBlock};

pub use clean::clean_part;
use layout::DifSequence;

// The first four bytes of a block as one number, the first lowest.
fn word(block: &[u8]) -> u32
    requires { 4 ≤ length block.now }
    ensures { Word block.now result }
{
    let byte0 = u32::from(block[0]);
    let byte1 = u32::from(block[1]);
    let byte2 = u32::from(block[2]);
    let byte3 = u32::from(block[3]);
    byte0 + 256 * byte1 + 65536 * byte2 + 16777216 * byte3
}

// The judged bits of a block's ID; 0 of a block of fewer than four bytes.
pub fn judged(block: &[u8]) -> u32
    ensures { JudgedBlock block.now result }
{
    if block.len() < 4 {
        return 0;
    }
    word(block) & 0xFFFCE0
}

// Those that DIF channel and sequence give; the sequence modulo 16, as a written ID has it.
pub fn key(dif: DifSequence) -> u32
    ensures { result ≡ key_of dif.channel (dif.sequence % 16) }
{
    let (h, q) = (dif.channel, dif.sequence);
    1024 * (4 * (q % 16) + 2 * (h % 2) + (1 - h / 2 % 2))
}

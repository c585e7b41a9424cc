// What an SSYB carries, by its position.
ghost use Rattle.std.specs.Prelude.{◌≡◌};
ghost use Rattle.rules_packs.specs.Subcode.{kind_of, subcode_pack};

use paper::{Pack, SubcodePack};

// First half: time code in 3, 5, 9, 11, binary group in 4, 10. Second half: time code in 3, 9.
pub fn kind_of(first: bool, k: u32) -> SubcodePack
    ensures { result ≡ kind_of first k }
{
    if first {
        match k {
            3 => SubcodePack::TimeCode,
            4 => SubcodePack::BinaryGroup,
            5 => SubcodePack::TimeCode,
            9 => SubcodePack::TimeCode,
            10 => SubcodePack::BinaryGroup,
            11 => SubcodePack::TimeCode,
            _ => SubcodePack::NoPack,
        }
    } else {
        match k {
            3 => SubcodePack::TimeCode,
            9 => SubcodePack::TimeCode,
            _ => SubcodePack::NoPack,
        }
    }
}

// The pack that is written for what an SSYB carries.
pub fn subcode_pack(kind: SubcodePack, time: Pack, group: Pack) -> Pack
    ensures { result ≡ subcode_pack kind time group }
{
    match kind {
        SubcodePack::TimeCode => time,
        SubcodePack::BinaryGroup => group,
        SubcodePack::NoPack => Pack {
            pc0: 0xFF,
            pc1: 0xFF,
            pc2: 0xFF,
            pc3: 0xFF,
            pc4: 0xFF,
        },
    }
}

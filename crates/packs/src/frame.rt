// What every sequence of a frame repeats.
ghost use Rattle.std.specs.Prelude.{◌≡◌};
ghost use Rattle.rules_packs.specs.Repeated.{repeated_of};

use crate::{bytes, vaux};
use paper::{Repeated, SubcodeData, System};

// Of the time code and binary group that are lent.
pub fn repeated(y: System, time_code: &[u8], binary_group: &[u8]) -> Repeated
    ensures { result ≡ repeated_of y time_code.now binary_group.now }
{
    Repeated {
        subcode: SubcodeData {
            time: bytes::pack_of(0x13, time_code),
            group: bytes::pack_of(0x14, binary_group),
        },
        vs: vaux::vs_pack(y),
        vsc: bytes::ones_after(0x61),
        asc: bytes::ones_after(0x51),
    }
}

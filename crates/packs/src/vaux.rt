// The packs of VAUX.
ghost use Rattle.std.specs.Prelude.{◌≡◌};
ghost use Rattle.rules_packs.specs.Vaux.{vs_at, vs_pack, vaux_pack, vs_ok};

use crate::bytes;
use paper::{Pack, System};

// VS is pack 39 in even sequences, 0 in odd.
pub fn vs_at(q: u32) -> u32
    ensures { result ≡ vs_at q }
{
    if q % 2 == 0 { 39 } else { 0 }
}

// The VS of a system.
pub(crate) fn vs_pack(y: System) -> Pack
    ensures { result ≡ vs_pack y }
{
    let rate = layout::rate(y);
    let stype = layout::stype(y);
    let pc3 = 0xC0 + rate * 0x20 + stype;
    Pack {
        pc0: 0x60,
        pc1: 0xFF,
        pc2: 0xFF,
        pc3: pc3 as u8,
        pc4: 0xFF,
    }
}

// Pack k of the 45 of sequence q: VS, VSC behind it, or none.
pub fn vaux_pack(vs: Pack, vsc: Pack, q: u32, k: u32) -> Pack
    ensures { result ≡ vaux_pack vs vsc q k }
{
    bytes::pair_at(vs_at(q), vs, vsc, k)
}

// A VS agrees in 60h, rate and STYPE (22).
pub fn vs_ok(y: System, p: Pack) -> bool
    ensures { result ≡ vs_ok y p }
{
    let pc3 = u32::from(p.pc3);
    let rate = layout::rate(y);
    let stype = layout::stype(y);
    (p.pc0 == 0x60) & ((pc3 / 32 % 2 == rate) & (pc3 % 32 == stype))
}

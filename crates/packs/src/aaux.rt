// The packs of the audio blocks.
ghost use Rattle.std.specs.Prelude.{◌≡◌};
ghost use Rattle.rules_packs.specs.Aaux.{as_at, size_of, mode_of, as_pack, aaux_pack, count_in, mode_in, is_mark, mode_ok, as_ok};

use crate::bytes;
use paper::{Pack, System};

// AS is pack 3 in even sequences, 0 in odd.
pub fn as_at(q: u32) -> u32
    ensures { result ≡ as_at q }
{
    if q % 2 == 0 { 3 } else { 0 }
}

// AF size: 20, 22, 24 for 1600, 1602, 1920.
fn size_of(count: u32) -> u8
    ensures { result ≡ size_of count }
{
    match count {
        1600 => 20,
        1602 => 22,
        _ => 24,
    }
}

// Mode: 0 for audio channels 1, 3, 5, 7 and 1 for 2, 4, 6, 8.
fn mode_of(c: u32) -> u32
    ensures { result ≡ mode_of c }
{
    if c % 2 == 0 { 1 } else { 0 }
}

// The AS of audio channel c.
pub fn as_pack(y: System, count: u32, c: u32) -> Pack
    ensures { result ≡ as_pack y count c }
{
    let size = size_of(count);
    let mode = mode_of(c);
    let rate = layout::rate(y);
    Pack {
        pc0: 0x50,
        pc1: 0x40 + size,
        pc2: (0x10 + mode) as u8,
        pc3: (0xC3 + rate * 0x20) as u8,
        pc4: 0xC0,
    }
}

// Pack a of sequence q, in A(a): the AS of its audio channel, ASC behind it, or none.
pub fn aaux_pack(source: Pack, asc: Pack, q: u32, a: u32) -> Pack
    ensures { result ≡ aaux_pack source asc q a }
{
    bytes::pair_at(as_at(q), source, asc, a)
}

// The count that an AS says; 0 for a size that is no count's.
pub fn count_in(p: Pack) -> u32
    ensures { result ≡ count_in p }
{
    match p.pc1 % 64 {
        20 => 1600,
        22 => 1602,
        24 => 1920,
        _ => 0,
    }
}

// The mode that an AS says.
pub fn mode_in(p: Pack) -> u32
    ensures { result ≡ mode_in p }
{
    u32::from(p.pc2) % 16
}

// 1111, invalid audio data: the mark of an unrecorded channel.
pub fn is_mark(mode: u32) -> bool
    ensures { result ≡ is_mark mode }
{
    mode == 0xF
}

// The audio channel's own mode, or the mark.
fn mode_ok(c: u32, mode: u32) -> bool
    ensures { result ≡ mode_ok c mode }
{
    (mode == mode_of(c)) | is_mark(mode)
}

// An AS of audio channel c keeps the rules (24).
pub fn as_ok(y: System, c: u32, p: Pack) -> bool
    ensures { result ≡ as_ok y c p }
{
    let count = count_in(p);
    let own = layout::is_count(y, count);
    let rate = layout::rate(y);
    let mode = mode_ok(c, mode_in(p));
    let pc3 = u32::from(p.pc3);
    (p.pc0 == 0x50)
        & ((p.pc1 < 128)
            & (own
                & ((p.pc2 < 32)
                    & (mode & ((pc3 / 32 % 2 == rate) & ((pc3 % 32 == 3) & (p.pc4 % 64 == 0)))))))
}

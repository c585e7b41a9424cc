// Packs of bytes, and a pack by its number.
ghost use Rattle.std.specs.Prelude.{◌≡◌};
ghost use Rattle.rules_packs.specs.Packs.{pack_of, ones_after, pair_at};

use paper::Pack;

// A pack of a header and four bytes.
pub fn pack_of(header: u8, bytes: &[u8]) -> Pack
    ensures { result ≡ pack_of header bytes.now }
{
    Pack {
        pc0: header,
        pc1: base::byte_at(bytes, 0),
        pc2: base::byte_at(bytes, 1),
        pc3: base::byte_at(bytes, 2),
        pc4: base::byte_at(bytes, 3),
    }
}

// A header and four FFh.
pub(crate) fn ones_after(header: u8) -> Pack
    ensures { result ≡ ones_after header }
{
    Pack {
        pc0: header,
        pc1: 0xFF,
        pc2: 0xFF,
        pc3: 0xFF,
        pc4: 0xFF,
    }
}

// Pack k of a row: the source pack is number `at`, its control pack follows, and no other pack stands there.
pub(crate) fn pair_at(at: u32, source: Pack, control: Pack, k: u32) -> Pack
    ensures { result ≡ pair_at at source control k }
{
    if k == at {
        return source;
    }
    if k as usize == at as usize + 1 {
        return control;
    }
    ones_after(0xFF)
}

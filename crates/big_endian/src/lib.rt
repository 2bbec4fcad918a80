// Big-endian numbers at a place.
#![tactic(auto, unfolding(crate::specs::Numbers::be16, crate::specs::Numbers::be32))]

ghost use Rattle.std.specs.Prelude.{◌≡◌};
ghost use Rattle.big_endian.specs.Numbers.{be16, be32};

// The 16-bit number at a place. A byte behind the end counts as nought.
pub fn u16_at(d: &[u8], at: usize) -> u16
    ensures { result ≡ be16 d.now at }
{
    let Some(high) = d.get(at) else {
        return 0;
    };
    let low = d.get(at + 1).copied().unwrap_or(0);
    u16::from_be_bytes([*high, low])
}

// The 32-bit number at a place, by the same rule. A pattern of four bytes would need a case for each number of bytes that are there.
pub fn u32_at(d: &[u8], at: usize) -> u32
    ensures { result ≡ be32 d.now at }
{
    u16_at(d, at) as u32 * 65536 + u16_at(d, at.saturating_add(2)) as u32
}

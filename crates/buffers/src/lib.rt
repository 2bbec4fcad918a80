// Bytes and big-endian numbers put into a lent buffer.
#![tactic(auto)]

ghost use Rattle.std.specs.Prelude.{◌≡◌};
ghost use Rattle.big_endian.specs.Numbers.{two, four};
ghost use Rattle.buffers.specs.Put.{fits_at, put};

// Copies src to a place of the buffer and answers true; where it doesn't fit, nothing changes and the answer is false.
#[tactic(auto, unfolding(crate::specs::Put::put, crate::specs::Put::fits_at))]
pub fn put_bytes(buf: &mut [u8], at: usize, src: &[u8]) -> bool
    ensures { (result ≡ fits_at buf.old at src.now) × (buf.new ≡ put buf.old at src.now) }
{
    match at.checked_add(src.len()) {
        Some(end) if end <= buf.len() => {
            // One by one: `copy_from_slice` calls memmove, and the archive for C needs memcpy and memset only.
            for (j, b) in src.iter().enumerate() {
                buf[at + j] = *b;
            }
            true
        }
        _ => false,
    }
}

// A 16-bit number put at a place, by the same rule.
pub fn put_u16(buf: &mut [u8], at: usize, n: u16) -> bool
    ensures { (result ≡ fits_at buf.old at (two n)) × (buf.new ≡ put buf.old at (two n)) }
{
    put_bytes(buf, at, &u16::to_be_bytes(n))
}

// A 32-bit number put at a place, by the same rule; a trait for the two would be longer than both.
pub fn put_u32(buf: &mut [u8], at: usize, n: u32) -> bool
    ensures { (result ≡ fits_at buf.old at (four n)) × (buf.new ≡ put buf.old at (four n)) }
{
    put_bytes(buf, at, &u32::to_be_bytes(n))
}

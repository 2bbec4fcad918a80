// A register carried by a table of half bytes that the caller lends, such as `crc_folds::tables::EIGHT_ROWS`.
#![tactic(auto)]

ghost use Rattle.std.specs.Prelude.{◌≡◌, ◌+◌, ◌*◌, ◌≤◌, ◌<◌, length};
ghost use Rattle.crc_nibbles.specs.Rows.{halves, four_halves, bytes_halves};

// The low byte of `x` by its halves, with the steps of the `k` bytes behind it.
fn look(t: &[u32], k: usize, x: u32) -> u32
    requires { (k * 32 + 32 ≤ length t.now) × (k < 4) }
    ensures { result ≡ halves t.now k x }
{
    let high = k * 32 + ((x / 16 % 16) as usize);
    let low = k * 32 + 16 + ((x % 16) as usize);
    t[low] ^ t[high]
}

// The steps of four bytes, nought by fewer than eight rows: the public clause answers for any slice, so nothing is asked of the caller. The look-ups do not wait for each other.
pub fn four(t: &[u32], x: u32) -> u32
    ensures { result ≡ four_halves t.now x }
{
    if t.len() < 128 {
        return 0;
    }
    let a = look(t, 3, x) ^ look(t, 2, x / 256);
    let b = look(t, 1, x / 65536) ^ look(t, 0, x / 16777216);
    a ^ b
}

// The register `c`, carried over the bytes of `s`, a byte a turn; `c` itself by fewer than two rows.
pub fn bytes(t: &[u32], c: u32, s: &[u8]) -> u32
    ensures { result ≡ bytes_halves t.now c s.now }
{
    let mut r = c;
    if t.len() < 32 {
        return r;
    }
    for b in s {
        let x = r ^ (*b as u32);
        r = look(t, 0, x) ^ (x / 256);
    }
    r
}

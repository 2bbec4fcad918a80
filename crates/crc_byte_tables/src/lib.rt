// Steps of four and of eight bytes by a table that the caller lends: for one who takes few steps at a time, many times.
#![tactic(auto)]

ghost use Rattle.std.specs.Prelude.{◌≡◌, ◌+◌, ◌*◌, ◌≤◌, ◌%◌, length, get_or};
ghost use Rattle.crc_byte_tables.specs.Tables.{byte_rows, by_bytes, four_by, eight_by};

// An entry of the row of bytes that starts at `i`.
fn entry(t: &[u32], i: usize, b: u8) -> u32
    requires { i + 256 ≤ length t.now }
    ensures { result ≡ get_or t.now (i + b) 0 }
{
    t[i + b as usize]
}

// By rows of bytes, from row `r` on: the steps of `r` bytes and four.
fn wide(t: &[u32], r: usize, x: u32) -> u32
    requires { (r * 256 + 1024 ≤ length t.now) × (r ≤ 4) }
    ensures { result ≡ by_bytes t.now r x }
{
    let i = r * 256;
    let [a, b, c, d] = x.to_le_bytes();
    let low = entry(t, i + 768, a) ^ entry(t, i + 512, b);
    let high = entry(t, i + 256, c) ^ entry(t, i, d);
    low ^ high
}

// The steps of four bytes, by `crc_folds::tables::EIGHT_ROWS` or `byte_rows()`: told by the size, since the public clause answers for any slice.
pub fn four_by(t: &[u32], x: u32) -> u32
    ensures { result ≡ four_by t.now x }
{
    if t.len() < 2048 {
        return crc_nibbles::four(t, x);
    }
    wide(t, 0, x)
}

// Those of eight bytes, by `byte_rows()` alone.
pub fn eight_by(t: &[u32], x: u32) -> u32
    ensures { result ≡ eight_by t.now x }
{
    if t.len() < 2048 {
        return 0;
    }
    wide(t, 4, x)
}

// Each row by the one before it, which goes through the steps of a byte. An index, since a turn reads two entries of the list that it
// writes, and one of them is wherever the other says.
fn more_rows(row: [u32; 256]) -> [u32; 2048]
    requires { row ≡ byte_rows 256 }
    ensures { result ≡ byte_rows 2048 }
{
    let mut w = [0; 2048];
    w[..256].copy_from_slice(&row);
    for i in 256..2048 {
        let x = w[i - 256];
        let y = w[(x % 256) as usize] ^ (x / 256);
        w[i] = y;
    }
    w
}

// Eight rows of bytes: half the look-ups, for one who takes so many steps that making the rows pays.
pub fn byte_rows() -> [u32; 2048]
    ensures { result ≡ byte_rows 2048 }
{
    // A byte, carried over one that is nought, takes its own steps alone.
    more_rows(std::array::from_fn(|b| crc32::update(b as u32, &[0])))
}

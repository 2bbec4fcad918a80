// CRC-32/ISO-HDLC: the register carried over bytes, so that a sum can be taken in parts, and the whole sum.
#![tactic(auto)]

ghost use Rattle.std.specs.Prelude.{◌≡◌};
ghost use Rattle.crc.specs.Crc.{bytes_from, finished, crc32_of};

// Where a sum starts. A sum of several parts is `finish(update(update(START, one), other))`.
pub const START: u32 = 0xFFFF_FFFF;

// The first two rows of `crc_folds::tables::EIGHT_ROWS`, for a byte: its high half and its low half.
const TWO_ROWS: [u32; 32] = [
    0x00000000, 0x1DB71064, 0x3B6E20C8, 0x26D930AC, 0x76DC4190, 0x6B6B51F4, 0x4DB26158, 0x5005713C,
    0xEDB88320, 0xF00F9344, 0xD6D6A3E8, 0xCB61B38C, 0x9B64C2B0, 0x86D3D2D4, 0xA00AE278, 0xBDBDF21C,
    0x00000000, 0x77073096, 0xEE0E612C, 0x990951BA, 0x076DC419, 0x706AF48F, 0xE963A535, 0x9E6495A3,
    0x0EDB8832, 0x79DCB8A4, 0xE0D5E91E, 0x97D2D988, 0x09B64C2B, 0x7EB17CBD, 0xE7B82D07, 0x90BF1D91,
];

// The register `c`, carried over the bytes of `s`.
pub fn update(c: u32, s: &[u8]) -> u32
    ensures { result ≡ bytes_from c s.now }
{
    // A constant array is written to the stack at each use, so a short slice gets a small table.
    if s.len() < 8 {
        let t = TWO_ROWS;
        crc_nibbles::bytes(&t, c, s)
    } else {
        crc_folds::by_words(c, s)
    }
}

// The sum that the register has come to.
pub fn finish(c: u32) -> u32
    ensures { result ≡ finished c }
{
    c ^ 0xFFFF_FFFF
}

// The sum of `s`.
pub fn crc32(s: &[u8]) -> u32
    ensures { result ≡ crc32_of s.now }
{
    finish(update(START, s))
}

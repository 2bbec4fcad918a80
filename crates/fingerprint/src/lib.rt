// FINGERPRINT: the sum over the bytes before it.
#![tactic(auto)]

ghost use Rattle.std.specs.Prelude.{◌≡◌, ◌+◌, ◌-◌, ◌≤◌, length};
ghost use Rattle.fingerprint.specs.Fingerprint.{fingerprint_at, printed};

use big_endian::u16_at;

pub const FINGERPRINT: u16 = 0x8028;

// Where the FINGERPRINT is last, its length stands in the length field already. Else the register goes over the bytes in
// three parts, with another number in that field, so that nothing is copied.
fn print_at(d: &[u8], p: usize) -> u32
    requires { (20 ≤ p) × (p ≤ length d.now) × (p - 20 + 8 ≤ 65535) }
    ensures { result ≡ fingerprint_at d.now p }
{
    let n = p - 20 + 8;
    if u16_at(d, 2) as usize == n {
        return crc32::crc32(&d[0..p]) ^ 0x5354554E;
    }
    let long = (n as u16).to_be_bytes();
    let a = crc32::update(crc32::START, &d[0..2]);
    let b = crc32::update(a, &long);
    let c = crc32::update(b, &d[4..p]);
    crc32::finish(c) ^ 0x5354554E
}

// The value of a FINGERPRINT whose header starts at p; 0 where none can start, as the public
// clause has it (`printed`).
pub fn fingerprint_at(d: &[u8], p: usize) -> u32
    ensures { result ≡ printed d.now p }
{
    if p < 20 || d.len() < p || 65535 < p - 20 + 8 {
        return 0;
    }
    print_at(d, p)
}

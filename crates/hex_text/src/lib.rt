// Text of bytes: hex to bytes, and bytes to hex.
#![tactic(auto)]

ghost use Rattle.std.specs.Prelude.{◌≡◌, ◌<◌, length};
ghost use Rattle.digits.specs.Digit.{digit_of, first_bad};
ghost use Rattle.hex_text.specs.Hex.{hex_said, glyph_of, hex_of, unhexed, read, shown, showing};

use digits::first_bad;

// Why a text is no hex: the place of the first character that is no digit; or one digit too many.
#[derive(Clone, Copy, Debug, PartialEq, Eq)]
pub enum HexFault {
    Bad(usize),
    Odd,
}

// The value of a digit, with no branch: letters lie one above a multiple of 16, behind 64.
#[tactic(auto, using(std::proofs::lemmas::Bool::Decides::nat_tests), unfolding(digits::specs::Digit::digit_of))]
fn nibble(b: u8) -> u8
    requires { digit_of b < 16 }
    ensures { (result ≡ digit_of b) × (result < 16) }
{
    b % 16 + b / 64 * 9
}

#[tactic(auto, unfolding(crate::specs::Hex::glyph_of))]
// Not by `char::from_digit`, which answers an `Option` of a letter.
fn glyph(d: u8) -> u8
    requires { d < 16 }
    ensures { result ≡ glyph_of d }
{
    if d < 10 { b'0' + d } else { b'a' + (d - 10) }
}

fn spell(s: &[u8], out: &mut [u8])
    requires { first_bad s.now ≡ length s.now }
    ensures { out.new ≡ unhexed out.old s.now }
{
    // What a chain over `iter_mut` wrote isn't known of the slice afterwards, so the places are counted.
    for i in 0..(s.len() / 2).min(out.len()) {
        out[i] = nibble(s[i * 2]) * 16 + nibble(s[i * 2 + 1]);
    }
}

// Puts the bytes that s spells at the front of out, as far as there is room; where s is no hex, nothing changes.
#[tactic(auto, using(std::proofs::lemmas::Bool::Decides::nat_tests), unfolding(crate::specs::Hex::hex_said, crate::specs::Hex::hex_of, crate::specs::Hex::read))]
pub fn unhex(s: &[u8], out: &mut [u8]) -> Result<usize, HexFault>
    ensures { (hex_said result ≡ hex_said (hex_of s.now)) × (out.new ≡ read (hex_of s.now) out.old s.now) }
{
    let bad = first_bad(s);
    if bad < s.len() {
        return Err(HexFault::Bad(bad));
    }
    if s.len() % 2 != 0 {
        return Err(HexFault::Odd);
    }
    spell(s, out);
    Ok(s.len() / 2)
}

// Puts two digits for each byte, in lower case, at the front of out, as far as there is room for both; answers how many bytes were shown.
// Two places for each byte: what a chain over `iter_mut` wrote isn't known of the slice afterwards.
pub fn show(d: &[u8], out: &mut [u8]) -> usize
    ensures { (result ≡ shown out.old d.now) × (out.new ≡ showing out.old d.now) }
{
    let n = d.len().min(out.len() / 2);
    for (i, b) in d[..n].iter().enumerate() {
        out[i * 2] = glyph(b / 16);
        out[i * 2 + 1] = glyph(b % 16);
    }
    n
}

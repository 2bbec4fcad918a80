// Digits in text: whether all are hex, and numbers in decimal or hex.
#![tactic(auto)]

ghost use Rattle.std.specs.Prelude.{◌≡◌, ◌<◌};
ghost use Rattle.digits.specs.Digit.{first_bad};
ghost use Rattle.digits.specs.Number.{number_said, value_from, number_of};

// The place of the first character that is no hex digit; the text's size where all are, as the public clause has it.
pub fn first_bad(s: &[u8]) -> usize
    ensures { result ≡ first_bad s.now }
{
    s.iter()
        .position(|b| !b.is_ascii_hexdigit())
        .unwrap_or(s.len())
}

// A number of digits below base, at most 32 bits wide.
fn value_in(s: &[u8], base: u32) -> Option<u64>
    requires above { 1 < base }
    requires below { base < 17 }
    ensures { result ≡ value_from base 0 s.now }
{
    let mut n = 0u32;
    for b in s {
        let digit = char::from(*b).to_digit(base)?;
        n = n.checked_mul(base)?.checked_add(digit)?;
    }
    Some(n as u64)
}

// The number that text says: decimal, or hex behind 0x.
pub fn number_of(s: &[u8]) -> Option<u64>
    ensures { number_said result ≡ number_said (number_of s.now) }
{
    if s.is_empty() {
        return None;
    }
    match s.strip_prefix(b"0x") {
        Some(hex) if !hex.is_empty() => value_in(hex, 16),
        _ => value_in(s, 10),
    }
}

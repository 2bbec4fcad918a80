// Which bytes of a text a person is shown by their numbers.
#![tactic(auto, using(std::proofs::lemmas::Bool::Decides::nat_tests), unfolding(crate::specs::Escape::high, crate::specs::Escape::escaped))]

ghost use Rattle.std.specs.Prelude.{◌≡◌};
ghost use Rattle.display.specs.Escape.{high, escaped};

fn is_high(b: u8) -> bool
    ensures { result ≡ high b }
{
    matches!(b, 0x80..=0x9F)
}

// Is a byte of a text shown by its number? Its neighbours are 0 where there is none.
pub fn is_escaped(before: u8, b: u8, after: u8) -> bool
    ensures { result ≡ escaped before b after }
{
    match b {
        0..=31 | 127 => true,
        0xC2 => is_high(after),
        _ => before == 0xC2 && is_high(b),
    }
}

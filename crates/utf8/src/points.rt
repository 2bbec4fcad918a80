// How many code points bytes have.
ghost use Rattle.std.specs.Prelude.{◌≡◌, ◌&&◌, leb, not};
ghost use Rattle.utf8_spec.specs.Points.{points};

// Whether a byte starts a code point: all but a UTF8-tail do.
fn starts(b: u8) -> bool
    ensures { result ≡ not (leb 0x80 b && leb b 0xBF) }
{
    !(0x80..=0xBF).contains(&b)
}

// How many code points bytes that are UTF-8 have; of any others, how many bytes are no UTF8-tail.
pub fn code_points(s: &[u8]) -> usize
    ensures { result ≡ points s.now }
{
    s.iter().filter(|b| starts(**b)).count()
}

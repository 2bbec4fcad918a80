// Digests compared.
ghost use Rattle.std.specs.Prelude.{◌≡◌};
ghost use Rattle.base.specs.Same.{same};

// Whether b is the digest a. Every byte is looked at, so that the time tells nothing of the place where they differ.
pub fn same_digest(a: [u8; 20], b: &[u8]) -> bool
    ensures { result ≡ same a b.now }
{
    if b.len() != 20 {
        return false;
    }
    let mut differing = 0;
    for (x, y) in a.iter().zip(b) {
        differing |= *x ^ *y;
    }
    differing == 0
}

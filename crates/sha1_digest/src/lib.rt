// SHA-1 (FIPS 180-4) of a slice.
#![tactic(auto)]

ghost use Rattle.std.specs.Prelude.{◌≡◌};
ghost use Rattle.sha1_digest.specs.Sha1 as spec;

pub mod compression;
pub mod padding;

// SHA-1 of s.
pub fn hash(s: &[u8]) -> [u8; 20]
    ensures { result ≡ spec.sha1 s.now }
{
    crate::padding::finish(crate::compression::START, 0, s)
}

// The end of SHA-1 (FIPS 180-4): the padding behind what is left of a message, and the digest.
ghost use Rattle.std.specs.Prelude.{◌≡◌, ◌+◌, ◌*◌, ◌%◌, ◌++◌, length, take};
ghost use Rattle.sha1_digest.specs.Compression as values;
ghost use Rattle.sha1_digest.specs.Finished as spec;

use crate::compression::{self, State};

// The block b with the number of bits of n bytes at its end, modulo 2^64.
fn counted(b: [u8; 64], n: usize) -> [u8; 64]
    ensures { result ≡ take 56 b ++ spec.count_of n }
{
    let mut r = b;
    r[56..].copy_from_slice(&n.wrapping_mul(8).to_be_bytes());
    r
}

// The hash value at the end of a message of n bytes, of which s are those behind its last whole block.
fn last(h: State, s: &[u8], n: usize) -> State
    requires { length s.now ≡ n % 64 }
    ensures { result ≡ values.run (s.now ++ spec.padding n) h }
{
    let mut b = hash_block::block(s);
    let k = s.len();
    b[k] = 0x80;
    if k < 56 {
        compression::absorb(h, &counted(b, n))
    } else {
        let g = compression::absorb(h, &b);
        compression::absorb(g, &counted([0; 64], n))
    }
}

// The hash value at the end of a message of n bytes, of which s are those that h has not taken in.
fn run(h: State, s: &[u8], n: usize) -> State
    requires { length s.now % 64 ≡ n % 64 }
    ensures { result ≡ values.run (s.now ++ spec.padding n) h }
{
    let (_, rest) = s.as_chunks::<64>();
    last(compression::absorb(h, s), rest, n)
}

fn digest(h: State) -> [u8; 20]
    ensures { result ≡ spec.digest h }
{
    let words = [
        h.a.to_be_bytes(),
        h.b.to_be_bytes(),
        h.c.to_be_bytes(),
        h.d.to_be_bytes(),
        h.e.to_be_bytes(),
    ];
    let mut r = [0; 20];
    r.copy_from_slice(words.as_flattened());
    r
}

// The digest of a message whose first blocks, so many, h has taken in, and of which s is the rest.
pub fn finish(h: State, blocks: u32, s: &[u8]) -> [u8; 20]
    ensures { result ≡ spec.finished h (blocks * 64 + length s.now) s.now }
{
    let n = blocks as usize * 64 + s.len();
    digest(run(h, s, n))
}

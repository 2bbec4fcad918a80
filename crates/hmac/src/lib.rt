// HMAC-SHA-1 (RFC 2104): of a slice, and of a datagram's front with another length.
#![tactic(auto)]

ghost use Rattle.std.specs.Prelude.{◌≡◌, ◌++◌, ◌+◌, length, take};
ghost use Rattle.sha1_digest.specs.Compression.{start, compress};
ghost use Rattle.hash_block.specs.Block.{block_of};
ghost use Rattle.sha1_digest.specs.Finished.{finished};
ghost use Rattle.sha1_digest.specs.Sha1.{sha1};
ghost use Rattle.big_endian.specs.Numbers.{with_length};
ghost use Rattle.hmac.specs.Hmac as spec;

use sha1_digest::compression::{self, State};
use sha1_digest::padding;

pub mod digests;

// The key as one block.
fn key_block(k: &[u8]) -> [u8; 64]
    ensures { result ≡ spec.key_block k.now }
{
    if k.len() <= 64 {
        hash_block::block(k)
    } else {
        hash_block::block(&sha1_digest::hash(k))
    }
}

// Each byte of k xored with x. `map` was tried: its contract has a closure for each call, and that all hold the same x is left to show.
fn xored(k: [u8; 64], x: u8) -> [u8; 64]
    ensures { result ≡ spec.xored k x }
{
    let mut r = k;
    for b in &mut r {
        *b ^= x;
    }
    r
}

// The hash value after the key's block xored with x.
fn keyed(k: [u8; 64], x: u8) -> State
    ensures { result ≡ compress (spec.xored k x) start }
{
    compression::absorb(compression::START, &xored(k, x))
}

// The outer hash, over the inner digest m.
fn outer(k: [u8; 64], m: [u8; 20]) -> [u8; 20]
    ensures { result ≡ sha1 (spec.xored k 0x5c ++ m) }
{
    padding::finish(keyed(k, 0x5c), 1, &m)
}

// HMAC-SHA-1 of the message m under the key k.
pub fn hmac(k: &[u8], m: &[u8]) -> [u8; 20]
    ensures { result ≡ spec.hmac_of k.now m.now }
{
    let b = key_block(k);
    outer(b, padding::finish(keyed(b, 0x36), 1, m))
}

// The first block of m, with n in the length field.
fn relabelled(m: &[u8], n: u16) -> [u8; 64]
    ensures { result ≡ with_length (block_of m.now) n }
{
    let mut b = hash_block::block(m);
    [b[2], b[3]] = n.to_be_bytes();
    b
}

// The inner hash of m with n in its length field, where h has taken in the key. Only the first block is copied.
fn inner(h: State, m: &[u8], n: u16) -> [u8; 20]
    ensures { result ≡ finished h (64 + length m.now) (with_length m.now n) }
{
    let b = relabelled(m, n);
    if m.len() < 64 {
        padding::finish(h, 1, &b[..m.len()])
    } else {
        padding::finish(compression::absorb(h, &b), 2, &m[64..])
    }
}

// HMAC-SHA-1 under the key k of the first p bytes of d, or of all where d has fewer, with n in the length field.
pub fn hmac_front(k: &[u8], d: &[u8], p: usize, n: u16) -> [u8; 20]
    ensures { result ≡ spec.hmac_of k.now (with_length (take p d.now) n) }
{
    let b = key_block(k);
    let h = keyed(b, 0x36);
    if p <= d.len() {
        outer(b, inner(h, &d[..p], n))
    } else {
        outer(b, inner(h, d, n))
    }
}

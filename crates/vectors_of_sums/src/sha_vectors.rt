// SHA-1 and HMAC-SHA-1: FIPS 180-4's examples and RFC 2202's cases, and sizes where the padding or the key's form changes.
// Of the latter the values in stdout are not published: they were made with Python's hashlib and hmac.
use crate::printing::Lines;
use crate::{counting, word};

// A digest in hex, and the end of its line.
fn show(out: &mut Lines, d: [u8; 20]) {
    out.hex(&d);
    writeln!(out);
}

fn named(out: &mut Lines, name: &str, d: [u8; 20]) {
    write!(out, "{name} ");
    show(out, d);
}

fn numbered(out: &mut Lines, name: &str, n: usize, d: [u8; 20]) {
    write!(out, "{name}{n} ");
    show(out, d);
}

fn agree(out: &mut Lines, name: &str, d: [u8; 20], s: &[u8]) {
    write!(out, "{name}{}", word(hmac::digests::same_digest(d, s)));
}

// A million times the letter a, block by block.
fn million() -> [u8; 20] {
    let block = [b'a'; 64];
    let mut h = sha1_digest::compression::START;
    for _ in 0..15625usize {
        h = sha1_digest::compression::absorb(h, &block);
    }
    sha1_digest::padding::finish(h, 15625, b"")
}

fn fips_180_4(out: &mut Lines) {
    named(out, "sha1 abc", sha1_digest::hash(b"abc"));
    named(
        out,
        "sha1 two-block",
        sha1_digest::hash(b"abcdbcdecdefdefgefghfghighijhijkijkljklmklmnlmnomnopnopq"),
    );
}

fn fips_180_4_ends(out: &mut Lines) {
    named(out, "sha1 empty", sha1_digest::hash(b""));
    named(out, "sha1 million-a", million());
}

// RFC 2202's seven.
fn hmac_1(out: &mut Lines) {
    let key = [0x0bu8; 20];
    named(out, "hmac 1", hmac::hmac(&key, b"Hi There"));
}

fn hmac_2(out: &mut Lines) {
    named(
        out,
        "hmac 2",
        hmac::hmac(b"Jefe", b"what do ya want for nothing?"),
    );
}

fn hmac_3(out: &mut Lines) {
    let key = [0xaau8; 20];
    let data = [0xddu8; 50];
    named(out, "hmac 3", hmac::hmac(&key, &data));
}

fn hmac_4(out: &mut Lines) {
    let key = counting::<200>();
    let data = [0xcdu8; 50];
    named(out, "hmac 4", hmac::hmac(&key[1..26], &data));
}

fn hmac_5(out: &mut Lines) {
    let key = [0x0cu8; 20];
    named(out, "hmac 5", hmac::hmac(&key, b"Test With Truncation"));
}

// The same key of 80 bytes.
fn hmac_with_long_key(out: &mut Lines, name: &str, s: &[u8]) {
    let key = [0xaau8; 80];
    named(out, name, hmac::hmac(&key, s));
}

fn hmac_6(out: &mut Lines) {
    hmac_with_long_key(
        out,
        "hmac 6",
        b"Test Using Larger Than Block-Size Key - Hash Key First",
    );
}

fn hmac_7(out: &mut Lines) {
    hmac_with_long_key(
        out,
        "hmac 7",
        b"Test Using Larger Than Block-Size Key and Larger Than One Block-Size Data",
    );
}

// A digest for each number.
fn each<F: Fn(usize) -> [u8; 20]>(out: &mut Lines, name: &str, from: usize, to: usize, digest: F)
    requires { F.IsAlwaysCallable digest }
{
    for n in from..to {
        numbered(out, name, n, digest(n));
    }
}

// Messages of each size.
fn sizes(out: &mut Lines, s: &[u8], from: usize, to: usize) {
    each(out, "sha1 size-", from, to, |n| {
        sha1_digest::hash(s.get(..n).unwrap_or_default())
    })
}

// Keys of each size.
fn keys(out: &mut Lines, s: &[u8], from: usize, to: usize) {
    each(out, "hmac key-", from, to, |n| {
        hmac::hmac(s.get(..n).unwrap_or_default(), b"message")
    })
}

// Fronts of each size, past the datagram's too.
fn fronts(out: &mut Lines, d: &[u8], from: usize, to: usize) {
    each(out, "hmac front-", from, to, |p| {
        hmac::hmac_front(b"key", d, p, 0x1234)
    })
}

fn edges(out: &mut Lines) {
    let s = counting::<200>();
    sizes(out, &s, 54, 66);
    sizes(out, &s, 118, 130);
    keys(out, &s, 0, 2);
    keys(out, &s, 63, 66);
    fronts(out, &s, 0, 6);
    fronts(out, &s, 54, 66);
    fronts(out, &s, 118, 130);
    fronts(out, &s, 199, 202);
}

fn first_differs(out: &mut Lines, d: [u8; 20]) {
    let mut other = d;
    other[0] = other[0] ^ 1;
    agree(out, "hmac first-differs", d, &other);
}

fn last_differs(out: &mut Lines, d: [u8; 20]) {
    let mut other = d;
    other[19] = other[19] ^ 128;
    agree(out, "hmac last-differs", d, &other);
}

fn shorter(out: &mut Lines, d: [u8; 20]) {
    agree(out, "hmac shorter", d, &d[0..19]);
    agree(out, "hmac none", d, b"");
}

fn comparisons(out: &mut Lines) {
    let d = hmac::hmac(b"key", b"message");
    agree(out, "hmac same", d, &d);
    first_differs(out, d);
    last_differs(out, d);
    shorter(out, d);
}

pub fn run(out: &mut Lines) {
    fips_180_4(out);
    fips_180_4_ends(out);
    hmac_1(out);
    hmac_2(out);
    hmac_3(out);
    hmac_4(out);
    hmac_5(out);
    hmac_6(out);
    hmac_7(out);
    edges(out);
    comparisons(out);
}

// SHA-1's hash value (FIPS 180-4), and what blocks make of it.
ghost use Rattle.std.specs.Prelude.{◌≡◌, ℕ, ◌+◌, ◌%◌, ◌<◌, ◌≤◌, take};
ghost use Rattle.sha1_digest.specs.Compression as spec;

// A hash value's five words.
#[derive(Clone, Copy)]
pub struct State {
    pub a: u32,
    pub b: u32,
    pub c: u32,
    pub d: u32,
    pub e: u32,
}

// The hash value before any block.
pub const START: State = State {
    a: 0x67452301,
    b: 0xefcdab89,
    c: 0x98badcfe,
    d: 0x10325476,
    e: 0xc3d2e1f0,
};

// Word t of a schedule that has the words before it.
fn next(w: &[u32; 80], t: usize) -> u32
    requires { (16 ≤ t) × (t < 80) }
    ensures { result ≡ spec.mixed w.now t }
{
    (w[t - 3] ^ w[t - 8] ^ w[t - 14] ^ w[t - 16]).rotate_left(1)
}

// The schedule's first sixteen words, those of the block.
fn own_words(block: &[u8; 64]) -> [u32; 80]
    ensures { take 16 result ≡ spec.schedule block.now 16 }
{
    let mut w = [0; 80];
    for (t, bytes) in block.as_chunks::<4>().0.iter().enumerate() {
        w[t] = u32::from_be_bytes(*bytes);
    }
    w
}

// Sixteen words more. Sixteen turns are few enough that the compiler unrolls them and keeps words in registers. By an index, since each
// word is made of four before it in the list that it goes into.
fn sixteen_more(w: &mut [u32; 80], from: usize)
    requires { (16 ≤ from) × (from + 16 ≤ 80) }
    ensures { w.new ≡ spec.extended w.old from 16 }
{
    for i in 0..16 {
        let t = from + i;
        w[t] = next(w, t);
    }
}

// The schedule of a block.
fn schedule(block: &[u8; 64]) -> [u32; 80]
    ensures { result ≡ spec.schedule block.now 80 }
{
    let mut w = own_words(block);
    sixteen_more(&mut w, 16);
    sixteen_more(&mut w, 32);
    sixteen_more(&mut w, 48);
    sixteen_more(&mut w, 64);
    w
}

fn choice(x: u32, y: u32, z: u32) -> u32
    ensures { result ≡ spec.ch x y z }
{
    z ^ (x & (y ^ z))
}

fn parity(x: u32, y: u32, z: u32) -> u32
    ensures { result ≡ spec.parity x y z }
{
    x ^ y ^ z
}

fn majority(x: u32, y: u32, z: u32) -> u32
    ensures { result ≡ spec.maj x y z }
{
    (x & y) ^ (x & z) ^ (y & z)
}

// One round, with the function's value f, the constant k and the schedule's word x.
fn round(s: State, f: u32, k: u32, x: u32) -> State
    ensures { result ≡ spec.round_by f k x s }
{
    State {
        a: s.a
            .rotate_left(5)
            .wrapping_add(f)
            .wrapping_add(s.e)
            .wrapping_add(k)
            .wrapping_add(x),
        b: s.a,
        c: s.b.rotate_left(30),
        d: s.c,
        e: s.d,
    }
}

// Twenty rounds, which share a function and a constant, so that no turn asks which one it is. Each twenty is code of its own, since where
// they start is a parameter of the type: one that serves two of them is not inlined, and SHA-1 then takes a sixth longer.
fn twenty<const FROM: usize, F: Fn(u32, u32, u32) -> u32>(
    h: State,
    w: &[u32; 80],
    mix: F,
    k: u32,
) -> State
    requires twenties { (FROM % 20 ≡ 0) × (FROM ≤ 60) }
    requires callable { F.IsAlwaysCallable mix }
    requires mixes { (x y z r : ℕ) → F.post mix x y z r → r ≡ spec.mix_of FROM x y z }
    requires constant { k ≡ spec.constant_of FROM }
    ensures { result ≡ spec.rounds w.now FROM 20 h }
{
    let mut s = h;
    for x in &w[FROM..FROM + 20] {
        s = round(s, mix(s.b, s.c, s.d), k, *x);
    }
    s
}

fn sum(s: State, h: State) -> State
    ensures { result ≡ spec.sum s h }
{
    State {
        a: s.a.wrapping_add(h.a),
        b: s.b.wrapping_add(h.b),
        c: s.c.wrapping_add(h.c),
        d: s.d.wrapping_add(h.d),
        e: s.e.wrapping_add(h.e),
    }
}

// The hash value after a block.
fn compress(h: State, block: &[u8; 64]) -> State
    ensures { result ≡ spec.compress block.now h }
{
    let w = schedule(block);
    let s20 = twenty::<0, _>(h, &w, choice, 0x5a827999);
    let s40 = twenty::<20, _>(s20, &w, parity, 0x6ed9eba1);
    let s60 = twenty::<40, _>(s40, &w, majority, 0x8f1bbcdc);
    let s80 = twenty::<60, _>(s60, &w, parity, 0xca62c1d6);
    sum(s80, h)
}

// The hash value h with all whole blocks of s taken in. Over `as_chunks` it took 5 % more instructions (docs/DECISIONS.md).
pub fn absorb(h: State, s: &[u8]) -> State
    ensures { result ≡ spec.run s.now h }
{
    let mut g = h;
    let mut t = s;
    while let Some((block, rest)) = t.split_first_chunk::<64>() {
        g = compress(g, block);
        t = rest;
    }
    g
}

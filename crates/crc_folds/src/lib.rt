// The register by words of eight bytes: each is folded into words behind it by shifts alone, and only the last two go through the table.
#![tactic(auto)]

ghost use Rattle.std.specs.Prelude.{◌≡◌, ℕ, ◌<◌, ◌+◌, ◌-◌, ◌*◌, ◌/◌, ◌^◌, ◌≤◌, ◌%◌, length, take, drop};
ghost use Rattle.std.specs.Int.Bits.{bit_xor};
ghost use Rattle.crc.specs.Crc.{bytes_from};
ghost use Rattle.crc.specs.Octets.{octets, word};
ghost use Rattle.crc_nibbles.specs.Rows.{Rows};
ghost use Rattle.crc_folds.specs.Waits.{register, far, near, folded, Waits};
ghost use Rattle.crc_folds.specs.declared.Waiting.{Waiting};

pub mod tables;

// The register `c`, carried over the bytes of `s`.
pub fn by_words(c: u32, s: &[u8]) -> u32
    ensures { result ≡ bytes_from c s.now }
{
    let t = tables::EIGHT_ROWS;
    words(&t, c, s)
}

// What waits to be added to the next five words, the next in `a`.
#[derive(Clone, Copy)]
struct Waiting {
    a: u64,
    b: u64,
    c: u64,
    d: u64,
    e: u64,
}

// For the next word only.
fn alone(a: u64) -> Waiting
    ensures { register result ≡ a }
{
    Waiting {
        a,
        b: 0,
        c: 0,
        d: 0,
        e: 0,
    }
}

// Eight bytes at a place, the first lowest; one by one, since `first_chunk` would answer an `Option` that is never `None` here.
fn word_at(s: &[u8], i: usize) -> u64
    requires { i + 8 ≤ length s.now }
    ensures { result ≡ word (take 8 (drop i s.now)) }
{
    u64::from_le_bytes([
        s[i],
        s[i + 1],
        s[i + 2],
        s[i + 3],
        s[i + 4],
        s[i + 5],
        s[i + 6],
        s[i + 7],
    ])
}

// The first four bytes, by the same way.
fn first_four(s: &[u8]) -> u32
    requires { 4 ≤ length s.now }
    ensures { result ≡ word (take 4 s.now) }
{
    u32::from_le_bytes([s[0], s[1], s[2], s[3]])
}

// The polynomial divides x^300 + x^155 + x^117 + x^89 + 1, so the next word, `w` with what waited for it, may as well be
// added 145, 183, 211 and 300 bits further on: to the second to the fifth word behind it.
fn fold_far(f: Waiting, w: u64) -> Waiting
    ensures { register result ≡ folded far (bit_xor (register f) w) }
{
    let x = f.a ^ w;
    Waiting {
        a: f.b,
        b: f.c ^ ((x << 17) ^ (x << 55)),
        c: f.d ^ (((x >> 47) ^ (x >> 9)) ^ (x << 19)),
        d: f.e ^ ((x >> 45) ^ (x << 44)),
        e: x >> 20,
    }
}

// It also divides x^120 + x^56 + x^40 + x^33 + x^15 + x^9 + x^8 + x + 1: more shifts, to the next two words only.
fn fold_near(f: Waiting, w: u64) -> Waiting
    ensures { register result ≡ folded near (bit_xor (register f) w) }
{
    let x = f.a ^ w;
    let low = (((x << 56) ^ (x << 55)) ^ ((x << 48) ^ (x << 47)))
        ^ (((x << 41) ^ (x << 23)) ^ (x << 16));
    let high = (((x >> 8) ^ (x >> 9)) ^ ((x >> 16) ^ (x >> 17)))
        ^ (((x >> 23) ^ (x >> 41)) ^ (x >> 48));
    Waiting {
        a: (f.b ^ x) ^ low,
        b: f.c ^ high,
        c: f.d,
        d: f.e,
        e: 0,
    }
}

// The next word goes through its steps, in two halves: a remainder and a quotient, so that each cast has a number that fits. The rule of the table is asked of each caller: only `by_words` has a table, and it is a constant.
fn settle(t: &[u32], f: Waiting, w: u64) -> Waiting
    requires { Rows t.now × (128 ≤ length t.now) }
    ensures { register result ≡ octets 8 (bit_xor (register f) w) }
{
    let x = f.a ^ w;
    let low = (x % 0x1_0000_0000) as u32;
    let high = (x / 0x1_0000_0000) as u32;
    let whole = crc_nibbles::four(t, crc_nibbles::four(t, low) ^ high);
    Waiting {
        a: f.b ^ (whole as u64),
        b: f.c,
        c: f.d,
        d: f.e,
        e: 0,
    }
}

// Four bytes go first where the size is four to seven above whole words, so that less than four are left in the end. Words are folded far as
// long as five are left behind them, then near, as long as two are; the last go through their steps.
fn words(t: &[u32], c: u32, s: &[u8]) -> u32
    requires { Rows t.now × (128 ≤ length t.now) }
    ensures { result ≡ bytes_from c s.now }
{
    let i = s.len() / 4 % 2 * 4;
    let begun = begun(t, c, s, i);
    let (distant, j) = take_words(begun, s, i, 48, fold_far);
    let (close, k) = take_words(distant, s, j, 24, fold_near);
    let (rest, n) = take_words(close, s, k, 8, |f, w| settle(t, f, w));
    crc_nibbles::bytes(t, rest.a as u32, &s[n..])
}

// Takes a word a turn, as long as so many bytes are left: what waits then, and the next byte's place. The place is counted,
// since the next loop goes on where this one ends.
fn take_words<F: Fn(Waiting, u64) -> Waiting>(
    f: Waiting,
    s: &[u8],
    i: usize,
    least: usize,
    step: F,
) -> (Waiting, usize)
    requires a_word { 8 ≤ least }
    requires within { i ≤ length s.now }
    requires callable { F.IsAlwaysCallable step }
    requires keeps { (v j w : ℕ) (g r : Waiting) → least ≤ length s.now - j → Waits v s.now (register g) j → w < 2 ^ 64 → w ≡ word (take 8 (drop j s.now)) → F.post step g w r → Waits v s.now (register r) (j + 8) }
    ensures waits { (v : ℕ) → Waits v s.now (register f) i → Waits v s.now (register result.0) result.1 }
    ensures within { result.1 ≤ length s.now }
    ensures few { length s.now - result.1 < least }
{
    let mut g = f;
    let mut i = i;
    while least <= s.len() - i {
        g = step(g, word_at(s, i));
        i += 8;
    }
    (g, i)
}

// What waits for the first whole word. The register with four bytes is the upper half of a word, which is folded where five
// words follow.
fn begun(t: &[u32], c: u32, s: &[u8], i: usize) -> Waiting
    requires { Rows t.now × (128 ≤ length t.now) × (i ≡ length s.now / 4 % 2 * 4) }
    ensures { Waits (bytes_from c s.now) s.now (register result) i }
{
    if i < 4 {
        return alone(c as u64);
    }
    let x = c ^ first_four(s);
    if s.len() < 44 {
        return alone(crc_nibbles::four(t, x) as u64);
    }
    fold_far(alone(0), (x as u64) << 32)
}

// UTF-8 as RFC 3629 has it: whether bytes are text.
#![tactic(auto)]

ghost use Rattle.std.specs.Prelude.{◌≡◌, false, MatchOption, ◌&&◌, ◌+◌, ◌≤◌, ◌<◌, length, get_or, drop, leb, eqb};
ghost use Rattle.base.specs.Choice.{pick};
ghost use Rattle.utf8_spec.specs.Utf8.{UTF8-char, OneOf, begins, is_utf8};
ghost use Rattle.utf8.specs.Places.{ranges, width_at};
ghost use Rattle.utf8.specs.Steps.{ones, On, Past};

pub mod points;

// Whether a byte is one from `lo` to `hi`.
fn right(b: u8, lo: u8, hi: u8) -> bool
    ensures { result ≡ (leb lo b && leb b hi) }
{
    (lo..=hi).contains(&b)
}

// The rows of the RFC's grammar for characters of more than one byte: the first and the last of the bytes that stand at each place.
const TAIL: (u8, u8) = (0x80, 0xBF);

const PAIR: [(u8, u8); 2] = [(0xC2, 0xDF), TAIL];

const E0: [(u8, u8); 3] = [(0xE0, 0xE0), (0xA0, 0xBF), TAIL];

const E1: [(u8, u8); 3] = [(0xE1, 0xEC), TAIL, TAIL];

const ED: [(u8, u8); 3] = [(0xED, 0xED), (0x80, 0x9F), TAIL];

const EE: [(u8, u8); 3] = [(0xEE, 0xEF), TAIL, TAIL];

const F0: [(u8, u8); 4] = [(0xF0, 0xF0), (0x90, 0xBF), TAIL, TAIL];

const F1: [(u8, u8); 4] = [(0xF1, 0xF3), TAIL, TAIL, TAIL];

const F4: [(u8, u8); 4] = [(0xF4, 0xF4), (0x80, 0x8F), TAIL, TAIL];

// Whether a character of a row stands at `at`, a place in the bytes: asked for, here and below, so that no function tests what its caller
// has tested. All bytes are looked at, which makes a single test of them.
fn stands<const N: usize>(s: &[u8], at: usize, row: &[(u8, u8); N]) -> bool
    requires { at ≤ length s.now }
    ensures { result ≡ begins (ranges row.now) (drop at s.now) }
{
    let Some(bytes) = s[at..].first_chunk::<N>() else {
        return false;
    };
    let mut all = true;
    for (b, (lo, hi)) in bytes.iter().zip(row) {
        all &= right(*b, *lo, *hi);
    }
    all
}

// How many bytes the character at `at` has, by the one row that its first byte may begin; 0 where none stands there.
// A number here and in `width_at`, and no `Option`: the definition that they promise, the grammar's `width`, answers 0 there.
fn width_by<const N: usize>(s: &[u8], at: usize, row: &[(u8, u8); N]) -> usize
    requires { at ≤ length s.now }
    ensures { result ≡ pick (begins (ranges row.now) (drop at s.now)) N 0 }
{
    if stands(s, at, row) { N } else { 0 }
}

// How many bytes the character at `at` has; 0 where none stands there.
fn width_at(s: &[u8], at: usize) -> usize
    requires { at < length s.now }
    ensures { result ≡ width_at s.now at }
{
    match s[at] {
        0x00..=0x7F => 1,
        0xC2..=0xDF => width_by(s, at, &PAIR),
        0xE0 => width_by(s, at, &E0),
        0xE1..=0xEC => width_by(s, at, &E1),
        0xED => width_by(s, at, &ED),
        0xEE..=0xEF => width_by(s, at, &EE),
        0xF0 => width_by(s, at, &F0),
        0xF1..=0xF3 => width_by(s, at, &F1),
        0xF4 => width_by(s, at, &F4),
        _ => 0,
    }
}

// The top bits of the eight bytes at `i`: none is set where each is below 128. A load and a mask once it is compiled.
fn tops(s: &[u8], i: usize) -> u64
    requires { i + 8 ≤ length s.now }
    ensures { eqb result 0 ≡ begins (ones 8) (drop i s.now) }
{
    let word = u64::from_le_bytes([
        s[i],
        s[i + 1],
        s[i + 2],
        s[i + 3],
        s[i + 4],
        s[i + 5],
        s[i + 6],
        s[i + 7],
    ]);
    word & 0x8080_8080_8080_8080
}

// Two functions, for one word and for four: with a constant for how many, four words would be a loop where they are one test.
fn ascii_8(s: &[u8], i: usize) -> bool
    requires { i + 8 ≤ length s.now }
    ensures { result ≡ begins (ones 8) (drop i s.now) }
{
    tops(s, i) == 0
}

fn ascii_32(s: &[u8], i: usize) -> bool
    requires { i + 32 ≤ length s.now }
    ensures { result ≡ begins (ones 32) (drop i s.now) }
{
    (tops(s, i) | tops(s, i + 8) | tops(s, i + 16) | tops(s, i + 24)) == 0
}

// Past the run of bytes below 128 that starts at `from`: a place and no iterator, since each run goes on where the one before it ended. A lone one, as a space between Greek words, is told by the byte behind it.
fn past_ascii(s: &[u8], from: usize) -> usize
    requires { (from < length s.now) × (get_or s.now from 0 < 0x80) }
    ensures { Past s.now from result }
{
    if 2 <= s.len() - from && 0x80 <= s[from + 1] {
        return from + 1;
    }
    let mut j = from;
    while 8 <= s.len() - j && ascii_8(s, j) {
        j += 8;
        while 32 <= s.len() - j && ascii_32(s, j) {
            j += 32;
        }
    }
    while j < s.len() && s[j] < 0x80 {
        j += 1;
    }
    j
}

// Past the run of characters of a row that starts at `from`. Nearly all text outside ASCII is made of three of them, so those have loops
// of their own, over places as in `past_ascii`.
fn past<const N: usize>(s: &[u8], from: usize, row: &[(u8, u8); N]) -> usize
    requires within { from ≤ length s.now }
    requires some { 0 < N }
    requires row_of { OneOf (ranges row.now) UTF8-char }
    ensures { On s.now from result }
{
    let mut j = from;
    while stands(s, j, row) {
        j += N;
    }
    j
}

// Past the run of bytes below 128 that starts at `at`, or past the character of more bytes that stands there; `None` where none stands.
fn onward(s: &[u8], at: usize) -> Option<usize>
    requires { at < length s.now }
    ensures { MatchOption result (false ≡ is_utf8 (drop at s.now)) (Past s.now at) }
{
    if s[at] < 0x80 {
        return Some(past_ascii(s, at));
    }
    match width_at(s, at) {
        0 => None,
        n => Some(at + n),
    }
}

// Whether the bytes are UTF-8.
pub fn is_utf8(s: &[u8]) -> bool
    ensures { result ≡ is_utf8 s.now }
{
    let mut i = 0;
    while i < s.len() {
        let Some(j) = onward(s, i) else {
            return false;
        };
        let pairs = past(s, j, &PAIR);
        let triples = past(s, pairs, &E1);
        i = past(s, triples, &F0);
    }
    true
}

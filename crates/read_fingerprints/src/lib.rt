// The FINGERPRINTs of a datagram, judged in order.
#![tactic(auto)]

ghost use Rattle.std.specs.Prelude.{◌≡◌, ◌+◌, ◌-◌, ◌≤◌, ◌<◌, length, take, drop};
ghost use Rattle.base.specs.Same.{same};
ghost use Rattle.big_endian.specs.Numbers.{four};
ghost use Rattle.attribute.specs.Scan.{scan_said};
ghost use Rattle.attribute.specs.Scanning.{Scanning};
ghost use Rattle.crc.specs.Octets.{word};
ghost use Rattle.fingerprint.specs.Fingerprint.{printed};
ghost use Rattle.fingerprint.specs.Register.{field};
ghost use Rattle.read_fingerprints.specs.Running.{running_at, relength_of, Ran, Judged};
ghost use Rattle.read_fingerprints.specs.Fingerprints.{print_fault, print_faults, on_from, prints_from};

use attribute::{Fault, Walk, step};
use big_endian::u32_at;
use fingerprint::{FINGERPRINT, fingerprint_at};
use table::Table;
use wire::refusal::Refusal;

mod table;

// The register over the first `upto` bytes, with `length` in the length field, and what so many bytes that are nought make of
// 0x8000_0000: so each FINGERPRINT goes on where the one before it stopped. That it is right (`Ran`) is said of a datagram and a place, so
// it stands in the contracts: to be a field it would take the datagram into the struct, and into `running_at`, which has only its bytes.
#[derive(Clone, Copy)]
struct Running {
    upto: usize,
    length: u16,
    sum: u32,
    power: u32,
}

// The value that a FINGERPRINT owes, and how far the register has gone.
#[derive(Clone, Copy)]
struct Summed {
    value: u32,
    run: Running,
}

// Where judging starts, and how many attributes stand before it. Such a pair is private here and in `read_message`.
#[derive(Clone, Copy)]
struct Place {
    at: usize,
    count: usize,
}

// The type number, and a length of nought.
fn begun(d: &[u8]) -> Running
    requires { 4 ≤ length d.now }
    ensures { result ≡ running_at d.now 4 0 }
{
    let none = [0u8, 0u8];
    let a = crc32::update(crc32::START, &d[0..2]);
    Running {
        upto: 4,
        length: 0,
        sum: crc32::update(a, &none),
        power: 0xEDB8_8320,
    }
}

// Bytes carried twice, with and without the power, tell what became of it.
fn carried(d: &[u8], run: Running, p: usize) -> Running
    requires { Ran d.now run p × (4 ≤ run.upto) × (p ≤ length d.now) }
    ensures { result ≡ running_at d.now p run.length }
{
    let from = run.upto;
    let s = &d[from..p];
    let sum = crc32::update(run.sum, s);
    let other = crc32::update(run.sum ^ run.power, s);
    Running {
        upto: p,
        length: run.length,
        sum,
        power: other ^ sum,
    }
}

// Four bytes as a number, the first lowest; one by one, as in `crc_folds`.
fn low_word(d: &[u8], at: usize) -> u32
    requires { at + 4 ≤ length d.now }
    ensures { result ≡ word (take 4 (drop at d.now)) }
{
    u32::from_le_bytes([d[at], d[at + 1], d[at + 2], d[at + 3]])
}

// Carried by a lent table, four bytes a turn: for the few bytes between two FINGERPRINTs. That the table has 128 words stands in four
// contracts: `register_at` asks for it once, and an empty table is a `Table` too.
fn words(t: Table, d: &[u8], run: Running, p: usize) -> Running
    requires { (128 ≤ length t.rows.now) × Ran d.now run p × (4 ≤ run.upto) × (p ≤ length d.now) }
    ensures { Ran d.now result p × (4 ≤ result.upto) }
{
    let length = run.length;
    let mut at = run.upto;
    let mut sum = run.sum;
    let mut power = run.power;
    // An index, since the place behind the last whole word is answered too: chunks would have it counted beside them.
    while 4 <= p - at {
        sum = crc_byte_tables::four_by(t.rows, sum ^ low_word(d, at));
        power = crc_byte_tables::four_by(t.rows, power);
        at += 4;
    }
    Running {
        upto: at,
        length,
        sum,
        power,
    }
}

// Eight bytes by half bytes.
fn two_words(t: Table, d: &[u8], run: Running, p: usize) -> Running
    requires { (128 ≤ length t.rows.now) × Ran d.now run p × (4 ≤ run.upto) × (run.upto + 8 ≡ p) × (p ≤ length d.now) }
    ensures { Ran d.now result p × (p ≤ result.upto) }
{
    let at = run.upto;
    let half = crc_byte_tables::four_by(t.rows, run.sum ^ low_word(d, at));
    let sum = crc_byte_tables::four_by(t.rows, half ^ low_word(d, at + 4));
    Running {
        upto: p,
        length: run.length,
        sum,
        power: crc_byte_tables::four_by(t.rows, crc_byte_tables::four_by(t.rows, run.power)),
    }
}

// From a FINGERPRINT to one right behind it, with no loop. No table, 128 words and 2,048 are one type, as the steps of
// `crc_byte_tables` take them, and the size tells which it is.
fn adjacent(t: Table, d: &[u8], run: Running, p: usize) -> Running
    requires { (128 ≤ length t.rows.now) × Ran d.now run p × (4 ≤ run.upto) × (run.upto + 8 ≡ p) × (p ≤ length d.now) }
    ensures { Ran d.now result p × (p ≤ result.upto) }
{
    if t.rows.len() < 2048 {
        return two_words(t, d, run, p);
    }
    let at = run.upto;
    let first = crc_byte_tables::eight_by(t.rows, run.sum ^ low_word(d, at));
    let second = crc_byte_tables::four_by(t.rows, low_word(d, at + 4));
    Running {
        upto: p,
        length: run.length,
        sum: first ^ second,
        power: crc_byte_tables::eight_by(t.rows, run.power),
    }
}

// A length field as what it adds to a register.
fn field_of(n: u16) -> u32
    ensures { result ≡ field n }
{
    u32::from(n.swap_bytes()) << 16
}

// Another number in the length field.
fn relength(run: Running, n: u16) -> Running
    ensures { result ≡ relength_of run n }
{
    let change = field_of(n) ^ field_of(run.length);
    Running {
        upto: run.upto,
        length: n,
        sum: run.sum ^ crc::product(change, run.power),
        power: run.power,
    }
}

// Whole words by the table, and what is left over.
fn between(t: Table, d: &[u8], run: Running, p: usize) -> Running
    requires { (128 ≤ length t.rows.now) × Ran d.now run p × (4 ≤ run.upto) × (p ≤ length d.now) }
    ensures { Ran d.now result p × (p ≤ result.upto) }
{
    let near = words(t, d, run, p);
    if near.upto == p {
        return near;
    }
    carried(d, near, p)
}

// The register as far as p: few bytes by the table, many by themselves.
fn register_at(t: Table, d: &[u8], run: Running, p: usize) -> Running
    requires { Ran d.now run p × (20 ≤ p) × (p ≤ length d.now) }
    ensures { Ran d.now result p × (p ≤ result.upto) }
{
    if run.upto < 4 {
        return carried(d, begun(d), p);
    }
    if 64 < p - run.upto || t.rows.len() < 128 {
        return carried(d, run, p);
    }
    if p - run.upto == 8 {
        return adjacent(t, d, run, p);
    }
    between(t, d, run, p)
}

// The register at p, with the length of a FINGERPRINT there.
fn register_for(t: Table, d: &[u8], run: Running, p: usize) -> Running
    requires { Ran d.now run p × (20 ≤ p) × (p ≤ length d.now) × (p - 20 + 8 ≤ 65535) }
    ensures { result ≡ running_at d.now p (p - 20 + 8) }
{
    relength(register_at(t, d, run, p), (p - 20 + 8) as u16)
}

// A FINGERPRINT that ends the datagram is summed in one piece: the usual one is the only one. One farther back than a datagram goes
// owes what `fingerprint_at` says of such a place.
fn sum_at(t: Table, d: &[u8], run: Running, p: usize) -> Summed
    requires { Ran d.now run p × (20 ≤ p) × (p ≤ length d.now) }
    ensures value { result.value ≡ printed d.now p }
    ensures run { Ran d.now result.run p }
{
    if d.len() - p == 8 || 65535 < p - 20 + 8 {
        return Summed {
            value: fingerprint_at(d, p),
            run,
        };
    }
    let here = register_for(t, d, run, p);
    Summed {
        value: crc32::finish(here.sum) ^ 0x5354554E,
        run: here,
    }
}

// Are the four bytes at a place this number?
fn is_there(d: &[u8], at: usize, x: u32) -> bool
    requires { at + 4 ≤ length d.now }
    ensures { result ≡ same (take 4 (drop at d.now)) (four x) }
{
    u32_at(d, at) == x
}

// Judges the attribute at p as a FINGERPRINT: how far the register has gone, or 15. One that is none passes.
fn print_fault(
    t: Table,
    d: &[u8],
    run: Running,
    p: usize,
    kind: u16,
    size: usize,
) -> Result<Running, Refusal>
    requires { Ran d.now run p × (20 ≤ p) × (p + 4 + size ≤ length d.now) }
    ensures { Judged d.now p (print_fault d.now p kind (take size (drop (p + 4) d.now))) result }
{
    if kind != FINGERPRINT {
        return Ok(run);
    }
    if size != 4 {
        return Err(Refusal::FINGERPRINT);
    }
    let s = sum_at(t, d, run, p);
    if is_there(d, p + 4, s.value) {
        return Ok(s.run);
    }
    Err(Refusal::FINGERPRINT)
}

// Each FINGERPRINT from a place on, which lies in the datagram and has so many attributes before it: `starting` alone makes such a pair. A walk
// by `step`, as in `read_message`: it answers where it stopped.
fn judge_each(t: Table, d: &[u8], from: usize, before: usize) -> Result<usize, Fault>
    requires { (20 ≤ from) × (from ≤ length d.now) × (before ≤ from) }
    ensures { result ≡ on_from d.now from before }
{
    let mut at = from;
    let mut count = before;
    let mut run = Running {
        upto: 0,
        length: 0,
        sum: crc32::START,
        power: 0x8000_0000,
    };
    loop {
        let Walk::Attribute {
            kind,
            size,
            next,
            ..
        } = step(d, at)
        else {
            if at == d.len() {
                return Ok(count);
            }
            return Err(Fault {
                reason: Refusal::CUT,
                place: at,
            });
        };
        match print_fault(t, d, run, at, kind, size) {
            Ok(there) => run = there,
            Err(reason) => return Err(Fault { reason, place: at }),
        }
        count += 1;
        at = next;
    }
}

fn judge_few(d: &[u8], from: usize, before: usize) -> Result<usize, Fault>
    requires { (20 ≤ from) × (from ≤ length d.now) × (before ≤ from) }
    ensures { result ≡ on_from d.now from before }
{
    let t = crc_folds::tables::EIGHT_ROWS;
    judge_each(Table { rows: &t }, d, from, before)
}

// Making a table pays where more than one FINGERPRINT may follow, and making a large one where very many may.
fn judge_from(d: &[u8], from: usize, before: usize) -> Result<usize, Fault>
    requires { (20 ≤ from) × (from ≤ length d.now) × (before ≤ from) }
    ensures { result ≡ on_from d.now from before }
{
    let left = d.len() - from;
    if left <= 8 {
        return judge_each(Table { rows: &[] }, d, from, before);
    }
    if left <= 2048 {
        return judge_few(d, from, before);
    }
    let t = crc_byte_tables::byte_rows();
    judge_each(Table { rows: &t }, d, from, before)
}

// The place and the number themselves where they can be, else those of the first attribute.
fn starting(d: &[u8], from: usize, before: usize) -> Place
    requires { 20 ≤ length d.now }
    ensures { Scanning (print_faults d.now) d.now result.at result.count (prints_from d.now from before) }
{
    if from < 20 || d.len() < from || from < before {
        return Place { at: 20, count: 0 };
    }
    Place {
        at: from,
        count: before,
    }
}

// Each FINGERPRINT from a place on, before which so many attributes stand. That both can be is tested, so that nothing is required.
pub fn prints_from(d: &[u8], from: usize, before: usize) -> Result<usize, Fault>
    ensures { scan_said result ≡ scan_said (prints_from d.now from before) }
{
    if d.len() < 20 {
        return Ok(0);
    }
    let p = starting(d, from, before);
    judge_from(d, p.at, p.count)
}

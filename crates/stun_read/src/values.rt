// What an attribute says, in its own terms: addresses, texts, error codes, lists of types, and hex where no rule says more.
use crate::page::{Number, Page};
use big_endian::u16_at;
use net::{Family, SocketAddr};
use read_typed::Value;
use registry::{ErrorCode, Rule};
use stun_io::walk::Attribute;
use wire::transaction_id::TransactionId;

// A type's name, or its number where it has none; answers how many characters that takes.
fn kind_name(page: &mut Page, kind: u16) -> usize {
    let name = names::attribute(kind);
    if name.is_empty() {
        write!(page, "0x");
        page.digits(kind.to_be_bytes());
        return 6;
    }
    write!(page, "{name}");
    name.len()
}

// PLACE NAME SIZE, in columns.
pub fn row(page: &mut Page, a: Attribute<'_>) {
    page.column(a.at, 5);
    page.print(b"  ");
    let taken = kind_name(page, a.kind);
    page.blanks(18usize.saturating_sub(taken));
    page.column(a.value.len(), 6);
    page.print(b"  ");
}

// A quote and a backslash stand behind a backslash.
fn character(page: &mut Page, before: u8, b: u8, after: u8) {
    if display::escape::is_escaped(before, b, after) {
        write!(page, "\\x");
        page.digits([b]);
        return;
    }
    if matches!(b, b'"' | b'\\') {
        page.print(b"\\");
    }
    page.print(&[b]);
}

fn quoted(page: &mut Page, s: &[u8]) {
    page.print(b"\"");
    let mut before = 0;
    for (i, b) in s.iter().enumerate() {
        let after = s.get(i + 1).copied().unwrap_or(0);
        character(page, before, *b, after);
        before = *b;
    }
    page.print(b"\"");
}

// Groups in hex, parted by colons.
fn groups(page: &mut Page, s: &[u16]) {
    for (i, n) in s.iter().enumerate() {
        if i != 0 {
            page.print(b":");
        }
        write!(page, "{n:x}");
    }
}

// All groups but a run of zeros, which two colons stand for.
fn ipv6(page: &mut Page, ip: &[u8; 16]) {
    let mut g = [0u16; 8];
    for (i, pair) in ip.chunks_exact(2).enumerate() {
        g[i] = u16_at(pair, 0);
    }
    let zeros = display::longest_zeros(&g);
    if zeros.size == 0 {
        groups(page, &g);
        return;
    }
    groups(page, g.get(..zeros.at).unwrap_or_default());
    page.print(b"::");
    let behind = zeros.at.saturating_add(zeros.size);
    groups(page, g.get(behind..).unwrap_or_default());
}

fn address(page: &mut Page, address: SocketAddr) {
    let SocketAddr { family, port, ip } = address;
    match family {
        Family::Ipv4 => {
            let [a, b, c, d, ..] = ip;
            write!(page, "{a}.{b}.{c}.{d}:{port}");
        }
        Family::Ipv6 => {
            page.print(b"[");
            ipv6(page, &ip);
            page.print(b"]");
            write!(page, ":{port}");
        }
    }
}

// The code, what it means, the phrase, and the reserved bits where they aren't nought.
fn code(page: &mut Page, error: ErrorCode, phrase: &[u8]) {
    let n = error.code;
    let name = names::code(n);
    if name.is_empty() {
        write!(page, "{n}, ");
    } else {
        write!(page, "{n} {name}, ");
    }
    quoted(page, phrase);
    let reserved = error.reserved;
    if reserved != 0 {
        write!(page, ", reserved {reserved}");
    }
}

// Types of two bytes each, and a dash for none.
fn list(page: &mut Page, value: &[u8]) {
    if value.is_empty() {
        page.print(b"-");
    }
    for (i, pair) in value.chunks(2).enumerate() {
        if i != 0 {
            page.print(b", ");
        }
        kind_name(page, u16_at(pair, 0));
    }
}

// A FINGERPRINT beside what the bytes before it come to.
fn checked_print(page: &mut Page, d: &[u8], a: Attribute<'_>) {
    let sum = fingerprint::fingerprint_at(d, a.at);
    page.hex(a.value);
    if big_endian::u32_at(a.value, 0) == sum {
        page.good(", good");
    } else {
        page.bad(", bad");
        write!(page, ": the bytes before it come to ");
        page.digits(sum.to_be_bytes());
    }
}

// A value that says nothing but its bytes.
fn plain(page: &mut Page, d: &[u8], a: Attribute<'_>) {
    if a.kind == fingerprint::FINGERPRINT {
        checked_print(page, d, a);
        return;
    }
    match registry::entry_rule(registry::entry_of(a.kind)) {
        Rule::Text => quoted(page, a.value),
        Rule::Types => list(page, a.value),
        _ => page.hex(a.value),
    }
}

// A value at fault: why, and its bytes.
fn faulty(page: &mut Page, n: u8, value: &[u8]) {
    page.bad("at fault: ");
    write!(page, "{}: ", Number(n));
    page.hex(value);
}

// What an attribute of a datagram says.
pub fn said(page: &mut Page, d: &[u8], a: Attribute<'_>, id: TransactionId) {
    match read_typed::value_of(a.kind, a.value, id) {
        Ok(Value::Address(said)) => address(page, said),
        Ok(Value::Code(error)) => code(page, error, read_typed::part_of(a.kind, a.value)),
        Ok(Value::Plain) => plain(page, d, a),
        Err(refusal) => faulty(page, refusal.number, a.value),
    }
}

// Padding is shown where it isn't nought.
pub fn padding(page: &mut Page, s: &[u8]) {
    if s.iter().any(|b| *b != 0) {
        write!(page, ", padding ");
        page.hex(s);
    }
}

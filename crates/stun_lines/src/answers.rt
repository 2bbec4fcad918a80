// One datagram's answers, for programs: the reading, the walk and the values, each a line of fields.
use attribute::Walk;
use net::SocketAddr;
use read_typed::Value;
use stun_io::output::{Hex, Output, Signed};
use stun_io::walk::{Attribute, Attributes};
use wire::refusal::number_of;
use wire::transaction_id::TransactionId;

const NO_ID: TransactionId = TransactionId { bytes: [0; 12] };

// What is asked of each datagram; Keyed has the key of its integrity.
#[derive(Clone, Copy)]
pub enum Job<'a> {
    Reading,
    Walk,
    Values,
    Keyed(&'a [u8]),
}

fn reading(out: &mut Output, d: &[u8]) {
    let reading = match read_message::read(d) {
        Ok(reading) => reading,
        Err(refusal) => {
            write!(out, "refused {}", refusal.number);
            return;
        }
    };
    let class = Signed(reading.class.as_u16() as u64, b' ');
    let method = Signed(reading.method.as_u16() as u64, b' ');
    let id = Hex(&reading.id.bytes);
    match reading.attributes {
        Ok(count) => write!(out, "whole {class}{method}{id} {count}"),
        Err(fault) => write!(
            out,
            "broken {class}{method}{id} {}{}",
            Signed(fault.reason.number as u64, b' '),
            fault.place
        ),
    }
}

// PLACE:TYPE:VALUEPLACE:SIZE:PADDINGPLACE:PADDINGSIZE for each attribute, and where the walk stops.
fn walk(out: &mut Output, d: &[u8]) {
    let mut walk = Attributes::of(d);
    for a in walk.by_ref() {
        let Attribute {
            at,
            kind,
            place,
            value,
            padding,
        } = a;
        let end = place.saturating_add(value.len());
        write!(
            out,
            "{}{}:{}{}{}{}",
            Signed(at as u64, b':'),
            Hex(&kind.to_be_bytes()),
            Signed(place as u64, b':'),
            Signed(value.len() as u64, b':'),
            Signed(end as u64, b':'),
            Signed(padding.len() as u64, b' ')
        );
    }
    match walk.here() {
        Walk::End { at } => write!(out, "end:{at}"),
        Walk::Cut { at } => write!(out, "cut:{at}"),
        _ => (),
    }
}

// What a value says, by its type.
fn said(out: &mut Output, a: Attribute<'_>, id: TransactionId) {
    match read_typed::value_of(a.kind, a.value, id) {
        Ok(Value::Address(address)) => {
            let SocketAddr { family, port, ip } = address;
            let ip = ip.get(..family.ip_size()).unwrap_or_default();
            write!(
                out,
                "addr={}{}{}",
                Signed(family.as_u8() as u64, b'='),
                Signed(port as u64, b'='),
                Hex(ip)
            );
        }
        Ok(Value::Code(error)) => {
            let phrase = read_typed::part_of(a.kind, a.value);
            write!(
                out,
                "error={}{}{}",
                Signed(error.code as u64, b'='),
                Signed(error.reserved as u64, b'='),
                Hex(phrase)
            );
        }
        Ok(Value::Plain) => write!(out, "bytes={}", Hex(read_typed::part_of(a.kind, a.value))),
        Err(refusal) => write!(out, "{}", refusal.number),
    }
}

// PLACE:TYPE:VALUE for each attribute of a known type, parted by blanks; a dash where there is none.
fn values(out: &mut Output, d: &[u8]) {
    // of a refused datagram the walk visits none, so that no ID is asked for
    let id = header::header_of(d).map_or(NO_ID, |header| header.id);
    let mut none = true;
    for a in Attributes::of(d) {
        if registry::entry_of(a.kind).is_some() {
            if !none {
                out.put(b" ");
            }
            write!(
                out,
                "{}{}:",
                Signed(a.at as u64, b':'),
                Hex(&a.kind.to_be_bytes())
            );
            said(out, a, id);
            none = false;
        }
    }
    if none {
        out.put(b"-");
    }
}

// The line for a datagram.
pub fn answer(out: &mut Output, d: &[u8], job: Job<'_>) {
    match job {
        Job::Reading => reading(out, d),
        Job::Walk => walk(out, d),
        Job::Values => values(out, d),
        Job::Keyed(key) => {
            reading(out, d);
            write!(
                out,
                " integrity {}",
                number_of(read_integrity::check_integrity(d, key))
            );
        }
    }
    out.put(b"\n");
}

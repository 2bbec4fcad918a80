// stun read and stun check: one datagram shown for a person, and whether its signature is good. Each line but the
// first stands behind a line end.
#![tactic(auto)]

ghost use Rattle.std.specs.Prelude.{◌≡◌, min};
ghost use Rattle.registry.specs.Rows.{rfc5389};
ghost use Rattle.read_message.specs.Reading.{reading_said, reading_of};
ghost use Rattle.read_integrity.specs.Integrity.{integrity_fault};

mod dump;
mod page;
mod values;

use attribute::Walk;
use page::{Number, Page};
use read_message::Reading;
use stun_file::Form;
use stun_io::input::MOST;
use stun_io::status::{Status, Told};
use stun_io::walk::Attributes;
use wire::refusal::number_of;
use wire::transaction_id::TransactionId;

// How many bytes there are.
fn amount(page: &mut Page, total: u64) {
    if total > 65555 {
        write!(page, ", more than 65555 bytes");
    } else {
        write!(page, ", {total} bytes");
    }
}

fn head(page: &mut Page, reading: Reading, total: u64) {
    let name = names::method(reading.method);
    write!(page, "{}, ", names::class(reading.class));
    if name.is_empty() {
        write!(page, "method {}", reading.method.as_u16());
    } else {
        write!(page, "{name}");
    }
    write!(page, ", ID ");
    page.hex(&reading.id.bytes);
    amount(page, total);
}

// Each attribute that the walk visits, and where it stops before the end.
fn attributes(page: &mut Page, d: &[u8], id: TransactionId) {
    let mut walk = Attributes::of(d);
    for a in walk.by_ref() {
        write!(page, "\n");
        values::row(page, a);
        values::said(page, d, a, id);
        values::padding(page, a.padding);
    }
    if let Walk::Cut { at } = walk.here() {
        page.print(b"\n");
        page.column(at, 5);
        page.bad("  cut off");
    }
}

// What is shown of a datagram that has a header: the attributes stand under their columns' names, where there are any.
fn opened(page: &mut Page, d: &[u8], reading: Reading, total: u64) {
    head(page, reading, total);
    if d.len() > 20 {
        write!(page, "\n\nplace  attribute           size  value");
        attributes(page, d, reading.id);
    }
}

// The number, of which `blame` and the names take any, where to read what to do about it, and the bytes that it is about, where there are bytes.
fn told(page: &mut Page, d: &[u8], n: u8, place: usize) {
    write!(page, ": {} (stun numbers {n} says what to do)", Number(n));
    if !d.is_empty() {
        write!(page, "\n");
        dump::rows(page, d, display::blame(d, n, place));
    }
    page.end();
}

fn whole(page: &mut Page, count: usize) {
    write!(page, "\n\n");
    page.good("whole");
    let s = if count == 1 { "" } else { "s" };
    write!(page, ": {count} attribute{s}");
    page.end();
}

fn broken(page: &mut Page, d: &[u8], n: u8, place: usize) {
    write!(page, "\n\n");
    page.bad("broken");
    write!(page, " at place {place}");
    told(page, d, n, place);
}

fn refused(page: &mut Page, d: &[u8], total: u64, n: u8) {
    write!(page, "no STUN message");
    amount(page, total);
    write!(page, "\n\n");
    page.bad("refused");
    told(page, d, n, 0);
}

// What a number makes the program end with. It is a number here, as in the two contracts that say which it is.
fn status_of(n: u8) -> u8
    ensures { result ≡ min 1 n }
{
    n.min(1)
}

// Answers what to end with, where it all could be written.
fn datagram(page: &mut Page, d: &[u8], total: u64) -> u8
    ensures { result ≡ min 1 (reading_said (reading_of rfc5389 d.now)).number }
{
    match read_message::read(d) {
        Ok(reading) => {
            opened(page, d, reading, total);
            match reading.attributes {
                Ok(count) => {
                    whole(page, count);
                    0
                }
                Err(fault) => {
                    let reason = fault.reason.number;
                    broken(page, d, reason, fault.place);
                    status_of(reason)
                }
            }
        }
        Err(refusal) => {
            refused(page, d, total, refusal.number);
            status_of(refusal.number)
        }
    }
}

// The file that a path names, `-` for standard input; answers what to end with.
pub fn read(rt: HostRuntime, path: &[u8], form: Option<Form>) -> Result<Status, Told> {
    let mut raw = [0u8; MOST];
    let found = stun_file::datagram(rt, path, form, &mut raw)?;
    let mut page = Page::new(rt);
    let n = datagram(&mut page, found.bytes, found.total);
    Ok(page.status(n))
}

// Answers what to end with, where it all could be written.
fn check_datagram(page: &mut Page, d: &[u8], key: &[u8]) -> u8
    ensures { result ≡ min 1 (integrity_fault rfc5389 d.now key.now) }
{
    let n = number_of(read_integrity::check_integrity(d, key));
    write!(page, "integrity {}", Number(n));
    page.end();
    status_of(n)
}

// The same under a key.
pub fn check(rt: HostRuntime, path: &[u8], key: &[u8]) -> Result<Status, Told> {
    let mut raw = [0u8; MOST];
    let found = stun_file::datagram(rt, path, None, &mut raw)?;
    let mut page = Page::new(rt);
    let n = check_datagram(&mut page, found.bytes, key);
    Ok(page.status(n))
}

// The reader: any bytes in; whole, broken or refused out.
#![tactic(auto)]

ghost use Rattle.std.specs.Prelude.{◌≡◌, ◌≤◌, ◌<◌, length};
ghost use Rattle.registry.specs.Rows.{rfc5389};
ghost use Rattle.read_message.specs.Front.{past_of, Values};
ghost use Rattle.read_message.specs.Reading.{outcome, reading_said, reading_of};

use attribute::{Fault, Walk, step};
use fingerprint::FINGERPRINT;
use read_fingerprints::prints_from;
use wire::method::Method;
use wire::refusal::Refusal;
use wire::transaction_id::TransactionId;
use wire::types::MessageClass;

// A datagram with a STUN header.
#[derive(Clone, Copy, Debug, PartialEq, Eq)]
pub struct Reading {
    pub class: MessageClass,
    pub method: Method,
    pub id: TransactionId,
    // How many attributes there are, where all pass and the datagram is whole; or the first fault, by which it is broken.
    pub attributes: Result<usize, Fault>,
}

// As far as no FINGERPRINT stands: the place, and how many attributes stand before it.
#[derive(Clone, Copy)]
struct Front {
    at: usize,
    count: usize,
}

// The front goes on past an attribute where it ends, unless that is a FINGERPRINT.
fn past(front: Front, at: usize, kind: u16, next: usize) -> Front
    requires { (front.count ≤ front.at) × (at < next) }
    ensures { result ≡ past_of front at kind next }
{
    if front.at != at || kind == FINGERPRINT {
        return front;
    }
    Front {
        at: next,
        count: front.count + 1,
    }
}

// The attributes' values, from the first: where the FINGERPRINTs begin, or the first of 10 to 14. A walk by `step`, as in `read_first` and
// `write_plan`: an iterator would have to tell where it stopped as well.
fn values(d: &[u8]) -> Result<Front, Fault>
    requires { 20 ≤ length d.now }
    ensures { Values d.now result }
{
    let mut at = 20;
    let mut front = Front { at: 20, count: 0 };
    loop {
        let Walk::Attribute {
            kind,
            value,
            size,
            next,
            ..
        } = step(d, at)
        else {
            if at == d.len() {
                return Ok(front);
            }
            return Err(Fault {
                reason: Refusal::CUT,
                place: at,
            });
        };
        if let Err(reason) = registry::fault(kind, &d[value..value + size]) {
            return Err(Fault { reason, place: at });
        }
        front = past(front, at, kind, next);
        at = next;
    }
}

// Values first; FINGERPRINTs only where all of those pass.
fn judged(d: &[u8]) -> Result<usize, Fault>
    requires { 20 ≤ length d.now }
    ensures { result ≡ outcome rfc5389 d.now }
{
    let front = values(d)?;
    prints_from(d, front.at, front.count)
}

// Reads a datagram.
#[tactic(auto, using(crate::proofs::Answers::read_refused, crate::proofs::Answers::read_long, crate::proofs::Answers::read_good, header::specs::SaidLaws::header_one))]
pub fn read(d: &[u8]) -> Result<Reading, Refusal>
    ensures { reading_said result ≡ reading_said (reading_of rfc5389 d.now) }
{
    let header = header::header_of(d)?;
    Ok(Reading {
        class: header.class,
        method: header.method,
        id: header.id,
        attributes: judged(d),
    })
}

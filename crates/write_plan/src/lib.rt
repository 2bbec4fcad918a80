// What appending an attribute to the message at the front of a buffer comes to, before a byte is written.
#![tactic(auto)]

ghost use Rattle.std.specs.Prelude.{◌≡◌, ◌≤◌, length};
ghost use Rattle.write_plan.specs.Plan.{plan_said, covers, body_at, plan_of};

use attribute::{Walk, step};
use wire::refusal::{Refusal, refused_by};

// Where an attribute goes: to `at`; then the body has `body` bytes and the message `total`.
#[derive(Clone, Copy, Debug, PartialEq, Eq)]
pub struct Room {
    pub at: usize,
    pub body: u16,
    pub total: usize,
}

// Do the attributes of a message cover its body? One walk by `step`: asked is where it stops.
fn covered(m: &[u8]) -> bool
    requires { 20 ≤ length m.now }
    ensures { result ≡ covers m.now }
{
    let mut at = 20;
    while let Walk::Attribute { next, .. } = step(m, at) {
        at = next;
    }
    at == m.len()
}

// The body length of the message at the front of the buffer; refused by 21 where it is none that an attribute can be put behind.
fn body_at(d: &[u8]) -> Result<u16, Refusal>
    ensures { result ≡ body_at d.now }
{
    let Ok(header) = header::front_of(d) else {
        return Err(Refusal::NO_MESSAGE);
    };
    let size = 20 + header.body as usize;
    if size <= d.len() && covered(&d[..size]) {
        return Ok(header.body);
    }
    Err(Refusal::NO_MESSAGE)
}

// What appending a value of n bytes with m bytes of padding comes to. `wrong` is the caller's own number for the value, 0 where it has
// nothing against it: a number and no `Refusal`, since the public clause answers for any.
pub fn plan_for(d: &[u8], wrong: u8, n: usize, m: usize) -> Result<Room, Refusal>
    ensures { plan_said result ≡ plan_said (plan_of d.now wrong n m) }
{
    let old = body_at(d)? as usize;
    refused_by(wrong)?;
    if m != (4 - n % 4) % 4 {
        return Err(Refusal::PADDING);
    }
    if 65532 < n {
        return Err(Refusal::FULL);
    }
    let body = old + 4 + (n + m);
    if 65532 < body {
        return Err(Refusal::FULL);
    }
    if d.len() < 20 + body {
        return Err(Refusal::ROOM);
    }
    Ok(Room {
        at: 20 + old,
        body: body as u16,
        total: 20 + body,
    })
}

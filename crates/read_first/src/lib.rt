// The first attribute of a type: where it stands, whether there is one, and its value as a part of the lent datagram.
#![tactic(auto)]

ghost use Rattle.std.specs.Prelude.{◌≡◌, ◌+◌};
ghost use Rattle.registry.specs.Rows.{rfc5389};
ghost use Rattle.read_first.specs.First.{first_said, first_in, first, placed, is_there, value_of, value_at};

use attribute::{Walk, step};

// Where an attribute starts, and the size of its value.
#[derive(Clone, Copy, Debug, PartialEq, Eq)]
pub struct Found {
    pub at: usize,
    pub size: usize,
}

// The first attribute of a type as far as the walk from place 20 goes, whatever else the bytes are. A walk by `step`, as in
// `read_message`, and what is found ends it.
pub fn search(d: &[u8], kind: u16) -> Option<Found>
    ensures { first_said result ≡ first_said (placed (first_in kind d.now)) }
{
    let mut at = 20;
    loop {
        let Walk::Attribute {
            kind: k,
            size,
            next,
            ..
        } = step(d, at)
        else {
            return None;
        };
        if k == kind {
            return Some(Found { at, size });
        }
        at = next;
    }
}

// The first attribute of a type in a datagram; none where the datagram is not whole.
pub fn find(d: &[u8], kind: u16) -> Option<Found>
    ensures { first_said result ≡ first_said (placed (first rfc5389 kind d.now)) }
{
    match read_message::read(d) {
        Ok(reading) if reading.attributes.is_ok() => search(d, kind),
        _ => None,
    }
}

// Whether a whole datagram has an attribute of the type.
pub fn has(d: &[u8], kind: u16) -> bool
    ensures { result ≡ is_there (first rfc5389 kind d.now) }
{
    find(d, kind).is_some()
}

// The value of the first attribute of the type: a part of the datagram and no copy. Empty where there is none, as the public clause has it;
// `has` tells.
pub fn first_value<'a>(d: &'a [u8], kind: u16) -> &'a [u8]
    ensures { (result.now ≡ value_of (first rfc5389 kind d.now)) × (result.ref_ptr ≡ (d.entry.ref_ptr.0, value_at (first rfc5389 kind d.now) + d.entry.ref_ptr.1)) }
{
    let Some(found) = find(d, kind) else {
        return &d[0..0];
    };
    let value = found.at + 4;
    &d[value..value + found.size]
}

// What C calls: the first attribute of a type, the realm to use, and the check of MESSAGE-INTEGRITY.
// A part is told by where it starts in the lent bytes, and its size.
#![tactic(auto)]

ghost use Rattle.std.specs.Prelude.{◌≡◌};
ghost use Rattle.registry.specs.Rows.{rfc5389};
ghost use Rattle.read_first.specs.First.{first_said, first_in, first, placed};
ghost use Rattle.read_integrity.specs.Integrity.{integrity_fault};
ghost use Rattle.c_value.specs.Part.{first_out, value_in, realm_in};

use read_first::Found;
use wire::refusal::number_of;

// Where the first attribute of a type starts, and the size of its value. As include/cratehoist.h has it, since C has no `Option`; so has the
// next.
#[repr(C)]
#[derive(Clone, Copy)]
pub struct First {
    pub there: bool,
    pub place: usize,
    pub size: usize,
}

#[repr(C)]
#[derive(Clone, Copy)]
pub struct Part {
    pub there: bool,
    pub start: usize,
    pub size: usize,
}

fn first_said(found: Option<Found>) -> First
    ensures { result ≡ first_out (first_said found) }
{
    match found {
        Some(found) => First {
            there: true,
            place: found.at,
            size: found.size,
        },
        None => First {
            there: false,
            place: 0,
            size: 0,
        },
    }
}

pub fn cratehoist_search(bytes: &[u8], kind: u16) -> First
    ensures { result ≡ first_out (first_said (placed (first_in kind bytes.now))) }
{
    first_said(read_first::search(bytes, kind))
}

// The `Part` is written out here and below: one function for both would have to ask for the room of four bytes behind the place.
pub fn cratehoist_first_value(datagram: &[u8], kind: u16) -> Part
    ensures { result ≡ value_in (first rfc5389 kind datagram.now) }
{
    match read_first::find(datagram, kind) {
        Some(found) => {
            let start = found.at + 4;
            Part {
                there: true,
                start,
                size: found.size,
            }
        }
        None => Part {
            there: false,
            start: 0,
            size: 0,
        },
    }
}

// A part of the datagram where `there`, else of the configured realm.
pub fn cratehoist_realm(datagram: &[u8], configured: &[u8]) -> Part
    ensures { result ≡ realm_in datagram.now configured.now }
{
    match read_first::find(datagram, read_realm::REALM) {
        Some(found) => Part {
            there: true,
            start: found.at + 4,
            size: found.size,
        },
        None => Part {
            there: false,
            start: 0,
            size: configured.len(),
        },
    }
}

// A number, 0 where nothing is refused: include/cratehoist.h has it so.
pub fn cratehoist_check_integrity(datagram: &[u8], key: &[u8]) -> u8
    ensures { result ≡ integrity_fault rfc5389 datagram.now key.now }
{
    number_of(read_integrity::check_integrity(datagram, key))
}

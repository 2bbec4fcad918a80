// What C calls: the reading and the walk, in numbers.
#![tactic(auto)]

ghost use Rattle.std.specs.Prelude.{◌≡◌};
ghost use Rattle.registry.specs.Rows.{rfc5389};
ghost use Rattle.attribute.specs.Walk.{walk_said, walk_at};
ghost use Rattle.read_message.specs.Reading.{reading_of};
ghost use Rattle.c_read.specs.Reading.{said, step_out};

use attribute::Walk;
use c_wire::Id;

// `what` is 0 for whole, 1 for broken and 2 for refused; `number` is 0 where whole. A struct of include/cratehoist.h, which has numbers
// for kinds, since C has no `Result`; so has the next.
#[repr(C)]
#[derive(Clone, Copy)]
pub struct Reading {
    pub what: u8,
    pub number: u8,
    pub message_class: u16,
    pub method: u16,
    pub count: usize,
    pub place: usize,
    pub id: Id,
}

// `what` is 0 for an attribute, 1 for the end and 2 for the cut.
#[repr(C)]
#[derive(Clone, Copy)]
pub struct Step {
    pub what: u8,
    pub kind: u16,
    pub place: usize,
    pub value: usize,
    pub size: usize,
    pub next: usize,
}

pub fn cratehoist_read(datagram: &[u8]) -> Reading
    ensures { result ≡ said (reading_of rfc5389 datagram.now) }
{
    match read_message::read(datagram) {
        Ok(reading) => {
            let bytes = reading.id.bytes;
            let message_class = reading.class.as_u16();
            let method = reading.method.code;
            match reading.attributes {
                Ok(count) => Reading {
                    what: 0,
                    number: 0,
                    message_class,
                    method,
                    count,
                    place: 0,
                    id: Id { bytes },
                },
                Err(fault) => Reading {
                    what: 1,
                    number: fault.reason.number,
                    message_class,
                    method,
                    count: 0,
                    place: fault.place,
                    id: Id { bytes },
                },
            }
        }
        Err(refusal) => Reading {
            what: 2,
            number: refusal.number,
            message_class: 0,
            method: 0,
            count: 0,
            place: 0,
            id: Id { bytes: [0; 12] },
        },
    }
}

fn step_said(w: Walk) -> Step
    ensures { result ≡ step_out (walk_said w) }
{
    match w {
        Walk::Attribute {
            at,
            kind,
            value,
            size,
            next,
        } => Step {
            what: 0,
            kind,
            place: at,
            value,
            size,
            next,
        },
        Walk::End { at } => Step {
            what: 1,
            kind: 0,
            place: at,
            value: 0,
            size: 0,
            next: 0,
        },
        Walk::Cut { at } => Step {
            what: 2,
            kind: 0,
            place: at,
            value: 0,
            size: 0,
            next: 0,
        },
    }
}

pub fn cratehoist_walk(datagram: &[u8], place: usize) -> Step
    ensures { result ≡ step_out (walk_said (walk_at datagram.now place)) }
{
    step_said(attribute::walk_at(datagram, place))
}

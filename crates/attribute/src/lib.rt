// One attribute, and the walk from attribute to attribute by place.
#![tactic(auto)]

ghost use Rattle.std.specs.Prelude.{◌≡◌, ◌<◌};
ghost use Rattle.attribute.specs.Attribute.{padded};
ghost use Rattle.attribute.specs.Walk.{walk_said, step_at, walk_at};

use big_endian::u16_at;
use wire::refusal::Refusal;

// What stands at a place: an attribute, whose value is `size` bytes from `value` on and whose padding ends at `next`; the end; or the cut.
// Three ends, so no Option and no Result.
#[derive(Clone, Copy, Debug, PartialEq, Eq)]
pub enum Walk {
    Attribute {
        at: usize,
        kind: u16,
        value: usize,
        size: usize,
        next: usize,
    },
    End {
        at: usize,
    },
    Cut {
        at: usize,
    },
}

// The first fault of attributes that are judged one after the other, and where its attribute starts.
#[derive(Clone, Copy, Debug, PartialEq, Eq)]
pub struct Fault {
    pub reason: Refusal,
    pub place: usize,
}

fn with_padding(size: usize) -> usize
    requires { size < 65536 }
    ensures { (result ≡ padded size) × (result < 65540) }
{
    size + (4 - size % 4) % 4
}

// The walk over bytes whose header has been checked: any place, as if an attribute began there.
pub fn step(d: &[u8], at: usize) -> Walk
    ensures { walk_said result ≡ walk_said (step_at d.now at) }
{
    if d.len() < at {
        return Walk::Cut { at };
    }
    let left = d.len() - at;
    if left == 0 {
        return Walk::End { at };
    }
    if left < 4 {
        return Walk::Cut { at };
    }
    let size = u16_at(d, at + 2) as usize;
    let wide = with_padding(size);
    if left - 4 < wide {
        return Walk::Cut { at };
    }
    Walk::Attribute {
        at,
        kind: u16_at(d, at),
        value: at + 4,
        size,
        next: at + 4 + wide,
    }
}

// The walk in a datagram: the cut where it is refused by 1 to 4 or the place lies in its header.
#[tactic(auto, using(crate::proofs::Steps::walk_refused, crate::proofs::Steps::walk_header, crate::proofs::Steps::walk_step, header::specs::SaidLaws::header_one, crate::specs::SaidLaws::walk_one))]
pub fn walk_at(d: &[u8], at: usize) -> Walk
    ensures { walk_said result ≡ walk_said (walk_at d.now at) }
{
    if header::header_of(d).is_err() || at < 20 {
        return Walk::Cut { at };
    }
    step(d, at)
}

// An attribute put behind the last one of the message at the front of a lent buffer.
#![tactic(auto)]

ghost use Rattle.std.specs.Prelude.{◌≡◌, ◌+◌, ◌≤◌, ◌<◌, length};
ghost use Rattle.base.specs.Laid.{laid};
ghost use Rattle.attribute.specs.Attribute.{bytes_of};
ghost use Rattle.write_begin.specs.Begin.{written_said};
ghost use Rattle.write_raw.specs.Append.{attr, answer, appended};

use buffers::{put_bytes, put_u16};
use wire::refusal::Refusal;
use write_plan::{Room, plan_for};

fn put_attr(buf: &mut [u8], at: usize, kind: u16, value: &[u8], pad: &[u8])
    requires { (length value.now < 65536) × (at + (4 + length value.now + length pad.now) ≤ length buf.old) }
    ensures { buf.new ≡ laid buf.old at (bytes_of (attr kind value.now pad.now)) }
{
    let n = value.len();
    put_u16(buf, at, kind);
    put_u16(buf, at + 2, n as u16);
    put_bytes(buf, at + 4, value);
    put_bytes(buf, at + 4 + n, pad);
}

// The clause of all that append: answer and buffer are equal to one definition each. Appends, unless `wrong` is a number by which the caller refuses the value; 21 goes before it, and 24, 25 and 26 behind. A number and no
// `Result`, as in `plan_for`, where any number of the caller's comes back.
pub fn append_unless(
    buf: &mut [u8],
    wrong: u8,
    kind: u16,
    value: &[u8],
    pad: &[u8],
) -> Result<usize, Refusal>
    ensures { (written_said result ≡ written_said (answer buf.old wrong (attr kind value.now pad.now)))
        × (buf.new ≡ appended buf.old wrong (attr kind value.now pad.now)) }
{
    let Room { at, body, total } = plan_for(buf, wrong, value.len(), pad.len())?;
    put_attr(buf, at, kind, value, pad);
    put_u16(buf, 2, body);
    Ok(total)
}

// Appends an attribute of any type, with its value and padding as they are given.
pub fn append_raw(buf: &mut [u8], kind: u16, value: &[u8], pad: &[u8]) -> Result<usize, Refusal>
    ensures { (written_said result ≡ written_said (answer buf.old 0 (attr kind value.now pad.now)))
        × (buf.new ≡ appended buf.old 0 (attr kind value.now pad.now)) }
{
    append_unless(buf, 0, kind, value, pad)
}

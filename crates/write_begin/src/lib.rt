// The writer's first call: a header with no attributes.
#![tactic(auto)]

ghost use Rattle.std.specs.Prelude.{◌≡◌, ◌≤◌, length};
ghost use Rattle.base.specs.Laid.{laid};
ghost use Rattle.write_begin.specs.Begin.{written_said, head_bytes, begun, beginning};

use buffers::{put_bytes, put_u16};
use cookie::put_cookie;
use wire::method::Method;
use wire::refusal::Refusal;
use wire::transaction_id::TransactionId;
use wire::types::{MessageClass, MessageType};

fn put_head(buf: &mut [u8], number: u16, id: [u8; 12])
    requires { 20 ≤ length buf.old }
    ensures { buf.new ≡ laid buf.old 0 (head_bytes number 0 id) }
{
    put_u16(buf, 0, number);
    put_u16(buf, 2, 0);
    put_cookie(buf, 4);
    put_bytes(buf, 8, &id);
}

// Writes a header with body length 0 to the front of the buffer; the answer, as of each call of the writer, is the message's size from now on.
pub fn begin(
    buf: &mut [u8],
    class: MessageClass,
    method: Method,
    id: TransactionId,
) -> Result<usize, Refusal>
    ensures { (written_said result ≡ written_said (begun buf.old method)) × (buf.new ≡ beginning buf.old class method id) }
{
    let number = MessageType { class, method }.as_u16()?;
    if buf.len() < 20 {
        return Err(Refusal::ROOM);
    }
    put_head(buf, number, id.bytes);
    Ok(20)
}

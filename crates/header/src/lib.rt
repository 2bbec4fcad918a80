// The checks of a header, 1 to 4.
#![tactic(auto)]

ghost use Rattle.std.specs.Prelude.{◌≡◌, ◌≤◌, length};
ghost use Rattle.header.specs.Header.{id_of, header_said, front_of, header_of};

use big_endian::u16_at;
use cookie::cookie_at;
use wire::method::Method;
use wire::refusal::Refusal;
use wire::transaction_id::TransactionId;
use wire::types::{MessageClass, MessageType};

#[derive(Clone, Copy, Debug, PartialEq, Eq)]
pub struct Header {
    pub class: MessageClass,
    pub method: Method,
    pub body: u16,
    pub id: TransactionId,
}

// The twelve bytes at place 8 of a header, which is there: the size is asked for, as below the reader too, where it was tested.
fn id_of(d: &[u8]) -> TransactionId
    requires { 20 ≤ length d.now }
    ensures { result.bytes ≡ id_of d.now }
{
    let mut bytes = [0u8; 12];
    bytes.copy_from_slice(&d[8..20]);
    TransactionId { bytes }
}

// The header at the front of a buffer, by the checks 1 to 3.
pub fn front_of(d: &[u8]) -> Result<Header, Refusal>
    ensures { header_said result ≡ header_said (front_of d.now) }
{
    if d.len() < 20 {
        return Err(Refusal::SHORT);
    }
    let t = MessageType::from_u16(u16_at(d, 0))?;
    if !cookie_at(d, 4) {
        return Err(Refusal::COOKIE);
    }
    Ok(Header {
        class: t.class,
        method: t.method,
        body: u16_at(d, 2),
        id: id_of(d),
    })
}

// The header of a datagram, by the checks 1 to 4.
pub fn header_of(d: &[u8]) -> Result<Header, Refusal>
    ensures { header_said result ≡ header_said (header_of d.now) }
{
    let header = front_of(d)?;
    if d.len() != 20 + header.body as usize {
        return Err(Refusal::LENGTH);
    }
    Ok(header)
}

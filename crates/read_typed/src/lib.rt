// Typed reading: a type, the bytes of a value and the transaction ID in; its fields out, or what is wrong with it.
#![tactic(auto)]

ghost use Rattle.std.specs.Prelude.{◌≡◌, ◌+◌, get_or};
ghost use Rattle.registry.specs.Rows.{rfc5389};
ghost use Rattle.registry.specs.ErrorCode.{code_of};
ghost use Rattle.read_typed.specs.Typed.{typed_said, family_numbered, ip_of, address_of, typed_of, part_of, part_at};

use net::{Family, SocketAddr, socket_addr_xor};
use registry::{ErrorCode, Rule};
use wire::refusal::Refusal;
use wire::transaction_id::TransactionId;

// What a value says. `Plain`: its bytes as they stand are all it says.
#[derive(Clone, Copy, Debug, PartialEq, Eq)]
pub enum Value {
    Address(SocketAddr),
    Code(ErrorCode),
    Plain,
}

// A byte that isn't there counts as nought.
fn byte(v: &[u8], i: usize) -> u8
    ensures { result ≡ get_or v.now i 0 }
{
    v.get(i).copied().unwrap_or(0)
}

// The IP at the front of 16 bytes.
fn ip_of(v: &[u8]) -> [u8; 16]
    ensures { result ≡ ip_of v.now }
{
    let mut ip = [0u8; 16];
    if v.len() < 4 {
        return ip;
    }
    buffers::put_bytes(&mut ip, 0, &v[4..]);
    ip
}

// Any number but 1 is taken for IPv6: the value was judged before.
fn family_of(number: u8) -> Family
    ensures { result ≡ family_numbered number }
{
    match number {
        1 => Family::Ipv4,
        _ => Family::Ipv6,
    }
}

// Family, port and IP as they stand in the value.
fn address(v: &[u8]) -> SocketAddr
    ensures { result ≡ address_of v.now }
{
    SocketAddr {
        family: family_of(byte(v, 1)),
        port: big_endian::u16_at(v, 2),
        ip: ip_of(v),
    }
}

// Code and reserved bits as they stand in the value.
fn error_code(v: &[u8]) -> ErrorCode
    ensures { result ≡ code_of v.now }
{
    let shared = byte(v, 2);
    let high = byte(v, 0) as u32 * 8192 + byte(v, 1) as u32 * 32;
    ErrorCode {
        code: (shared % 8) as u16 * 100 + byte(v, 3) as u16,
        reserved: high + (shared / 8) as u32,
    }
}

// What a value of a type says: its fields, or 11 to 14 just as the reader would give. A type that the list doesn't have is plain.
pub fn value_of(kind: u16, value: &[u8], id: TransactionId) -> Result<Value, Refusal>
    ensures { typed_said result ≡ typed_said (typed_of rfc5389 kind value.now id) }
{
    let entry = registry::entry_of(kind);
    registry::entry_fault(entry, value)?;
    match registry::entry_rule(entry) {
        Rule::Address => Ok(Value::Address(address(value))),
        Rule::XorAddress => Ok(Value::Address(socket_addr_xor(address(value), id))),
        Rule::Code => Ok(Value::Code(error_code(value))),
        Rule::Text | Rule::Types | Rule::Plain => Ok(Value::Plain),
    }
}

// The part that goes with it: the phrase of an ERROR-CODE, the whole value where it is plain, and else an empty part,
// as the public clause has it.
pub fn part_of<'a>(kind: u16, value: &'a [u8]) -> &'a [u8]
    ensures { (result.now ≡ part_of rfc5389 kind value.now) × (result.ref_ptr ≡ (value.entry.ref_ptr.0, part_at rfc5389 kind value.now + value.entry.ref_ptr.1)) }
{
    let entry = registry::entry_of(kind);
    if registry::entry_fault(entry, value).is_err() {
        return &value[0..0];
    }
    match registry::entry_rule(entry) {
        Rule::Address | Rule::XorAddress => &value[0..0],
        Rule::Code => &value[4..],
        Rule::Text | Rule::Types | Rule::Plain => value,
    }
}

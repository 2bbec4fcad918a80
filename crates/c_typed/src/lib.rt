// What C calls: what a value says, and typed appends. A family that is none is refused by 23, behind 21. No reader is here, so that in
// `c_read` and `c_value` the reader is the only caller of the rules, and the compiler puts them into its loop.
#![tactic(auto)]

ghost use Rattle.std.specs.Prelude.{◌≡◌, ◌-◌, length};
ghost use Rattle.registry.specs.Rows.{rfc5389};
ghost use Rattle.registry.specs.ErrorCode.{code_value};
ghost use Rattle.read_typed.specs.Typed.{typed_of, part_of, part_at};
ghost use Rattle.write_raw.specs.Append.{answer, appended};
ghost use Rattle.write_typed.specs.Typed.{typed, refusal, text_refusal};
ghost use Rattle.write_error_code.specs.ErrorCode.{code_refusal};
ghost use Rattle.c_write.specs.Written.{told};
ghost use Rattle.c_typed.specs.Typed.{typed_told};
ghost use Rattle.c_typed.specs.Given.{refusal_of, attr_of, error_of};

use c_wire::{Address, Id};
use c_write::{Written, in_numbers};
use net::{Family, SocketAddr};
use read_typed::Value;
use registry::ErrorCode;
use wire::refusal::Refusal;
use wire::transaction_id::TransactionId;
use write_address::append_address;
use write_typed::append_value;

// What a value says, where `number` is 0; the part is one of the value. A struct of include/cratehoist.h, since C has no `Result`.
#[repr(C)]
#[derive(Clone, Copy)]
pub struct Typed {
    pub number: u8,
    pub family: u8,
    pub port: u16,
    pub code: u16,
    pub reserved: u32,
    pub ip: [u8; 16],
    pub start: usize,
    pub size: usize,
}

const NOTHING: Typed = Typed {
    number: 0,
    family: 0,
    port: 0,
    code: 0,
    reserved: 0,
    ip: [0; 16],
    start: 0,
    size: 0,
};

// The part is told from what the value says, so that it is judged once.
pub fn cratehoist_typed_value(kind: u16, value: &[u8], id: Id) -> Typed
    ensures { result ≡ typed_told (typed_of rfc5389 kind value.now (record { bytes = id.bytes })) (part_at rfc5389 kind value.now) (length (part_of rfc5389 kind value.now)) }
{
    let bytes = id.bytes;
    match read_typed::value_of(kind, value, TransactionId { bytes }) {
        Ok(Value::Address(address)) => {
            let ip = address.ip;
            Typed {
                family: address.family.as_u8(),
                port: address.port,
                ip,
                ..NOTHING
            }
        }
        Ok(Value::Code(ErrorCode { code, reserved })) => Typed {
            code,
            reserved,
            start: 4,
            size: value.len().saturating_sub(4),
            ..NOTHING
        },
        Ok(Value::Plain) => Typed {
            size: value.len(),
            ..NOTHING
        },
        Err(Refusal { number }) => Typed { number, ..NOTHING },
    }
}

// A number, 0 where nothing is refused: include/cratehoist.h has it so.
pub fn cratehoist_refusal(kind: u16, value: &[u8]) -> u8
    ensures { result ≡ refusal rfc5389 kind value.now }
{
    write_typed::refusal_of(kind, value)
}

pub fn cratehoist_append_text(buffer: &mut [u8], kind: u16, text: &[u8]) -> Written
    ensures { (result ≡ told (answer buffer.old (text_refusal rfc5389 kind text.now) (typed kind text.now)))
        × (buffer.new ≡ appended buffer.old (text_refusal rfc5389 kind text.now) (typed kind text.now)) }
{
    in_numbers(write_typed::append_text(buffer, kind, text))
}

pub fn cratehoist_append_unknown_attributes(buffer: &mut [u8], types: &[u8]) -> Written
    ensures { (result ≡ told (answer buffer.old (refusal rfc5389 0x000A types.now) (typed 0x000A types.now)))
        × (buffer.new ≡ appended buffer.old (refusal rfc5389 0x000A types.now) (typed 0x000A types.now)) }
{
    in_numbers(write_typed::append_unknown_attributes(buffer, types))
}

// A family is a number in C.
pub fn cratehoist_append_address(buffer: &mut [u8], kind: u16, address: Address) -> Written
    ensures { (result ≡ told (answer buffer.old (refusal_of kind address) (attr_of buffer.old kind address)))
        × (buffer.new ≡ appended buffer.old (refusal_of kind address) (attr_of buffer.old kind address)) }
{
    let Address { family, port, ip } = address;
    let family = match family {
        1 => Family::Ipv4,
        2 => Family::Ipv6,
        _ => return in_numbers(append_value(buffer, Refusal::VALUE.number, kind, b"")),
    };
    in_numbers(append_address(buffer, kind, SocketAddr { family, port, ip }))
}

pub fn cratehoist_append_error_code(
    buffer: &mut [u8],
    code: u16,
    reserved: u32,
    phrase: &[u8],
) -> Written
    ensures { (result ≡ told (answer buffer.old (code_refusal rfc5389 (error_of code reserved) phrase.now) (typed 0x0009 (code_value (error_of code reserved) phrase.now))))
        × (buffer.new ≡ appended buffer.old (code_refusal rfc5389 (error_of code reserved) phrase.now) (typed 0x0009 (code_value (error_of code reserved) phrase.now))) }
{
    let error = ErrorCode { code, reserved };
    in_numbers(write_error_code::append_error_code(buffer, error, phrase))
}

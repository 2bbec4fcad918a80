// The calls of a script: each takes its fields, makes one call of the library and says what came of it.
use crate::expected::Wanted;
use crate::fields::Fields;
use crate::script::LONGEST;
use net::{Family, SocketAddr};
use registry::ErrorCode;
use stun_io::output::{Hex, Output, Signed};
use stun_io::status::Status;
use stun_io::words::is_comment;
use wire::method::Method;
use wire::refusal::Refusal;
use wire::transaction_id::TransactionId;
use wire::types::class_numbered;

// What a call on the message came to.
type Written = Result<usize, Refusal>;

// As many bytes as a buffer has at most.
const LARGEST: usize = 131072;

// The buffer that the calls work on, the first bytes of a store, and room for the bytes that the fields of a line say: the longest
// line has 262,143 characters, so no field says more than that, and no `load` more than the store has. They are arrays, since the program
// asks for no memory. A ghost field for the size was tried in place of a test of it: the call that lends store and room at once didn't prove.
#[derive(Drop)]
pub struct Buffer {
    store: [u8; LARGEST],
    size: usize,
    bytes: [u8; LONGEST],
}

// The message at the buffer's front, by its own header; empty where there is none.
fn message_of(buffer: &[u8]) -> &[u8] {
    match header::front_of(buffer) {
        Ok(header) => buffer.get(..20 + header.body as usize).unwrap_or_default(),
        Err(_) => b"",
    }
}

fn show(out: &mut Output, d: &[u8]) {
    if d.is_empty() {
        out.put(b"-\n");
    } else {
        write!(out, "{}\n", Hex(d));
    }
}

fn ok(out: &mut Output, n: usize) {
    write!(out, "ok {}", Signed(n as u64, b'\n'));
}

fn is_pair(family: Family, n: u64, ip: &[u8]) -> bool {
    family.as_u8() as u64 == n && family.ip_size() == ip.len()
}

// begin CLASS METHOD ID
fn begun(fields: &mut Fields<'_>, message: &mut [u8]) -> Result<Written, Wanted> {
    let class = class_numbered(fields.class()?);
    let code = fields.low(Wanted::Method)?;
    let mut bytes = [0; 12];
    if fields.bytes(&mut bytes, Wanted::Id)? != 12 {
        return Err(Wanted::Id);
    }
    fields.end()?;
    let id = TransactionId { bytes };
    Ok(write_begin::begin(message, class, Method { code }, id))
}

// raw TYPE VALUE PADDING. Fields, room and message are lent to each call apart: a struct of them would hold three loans of different lives.
fn raw(fields: &mut Fields<'_>, room: &mut [u8], message: &mut [u8]) -> Result<Written, Wanted> {
    let kind = fields.short(Wanted::AttributeType)?;
    let size = fields.bytes(room, Wanted::Value)?;
    let (value, room) = room.split_at_mut(size);
    let padding = fields.bytes(room, Wanted::Padding)?;
    fields.end()?;
    Ok(write_raw::append_raw(message, kind, value, &room[..padding]))
}

// address TYPE FAMILY PORT IPHEX. A family and a size that are no pair break the rule of an address, whatever its bytes: 23, unless the
// front is no message. Number and size make the family together, so it is no conversion of the number.
fn address(
    fields: &mut Fields<'_>,
    room: &mut [u8],
    message: &mut [u8],
) -> Result<Written, Wanted> {
    let kind = fields.address_type()?;
    let n = fields.number(Wanted::Family)?;
    let port = fields.short(Wanted::Port)?;
    let size = fields.bytes(room, Wanted::Ip)?;
    fields.end()?;
    let bytes = &room[..size];
    let family = if is_pair(Family::Ipv4, n, bytes) {
        Family::Ipv4
    } else if is_pair(Family::Ipv6, n, bytes) {
        Family::Ipv6
    } else {
        return Ok(write_typed::append_value(message, Refusal::VALUE.number, kind, b""));
    };
    let mut ip = [0; 16];
    buffers::put_bytes(&mut ip, 0, bytes);
    let address = SocketAddr { family, port, ip };
    Ok(write_address::append_address(message, kind, address))
}

// text TYPE HEX
fn text(fields: &mut Fields<'_>, room: &mut [u8], message: &mut [u8]) -> Result<Written, Wanted> {
    let kind = fields.text_type()?;
    let size = fields.bytes(room, Wanted::Bytes)?;
    fields.end()?;
    Ok(write_typed::append_text(message, kind, &room[..size]))
}

// error CODE HEX RESERVED
fn error(fields: &mut Fields<'_>, room: &mut [u8], message: &mut [u8]) -> Result<Written, Wanted> {
    let code = fields.low(Wanted::Code)?;
    let size = fields.bytes(room, Wanted::Bytes)?;
    let reserved = fields.reserved()?;
    fields.end()?;
    let error = ErrorCode { code, reserved };
    Ok(write_error_code::append_error_code(message, error, &room[..size]))
}

// types T,T,..
fn types(fields: &mut Fields<'_>, room: &mut [u8], message: &mut [u8]) -> Result<Written, Wanted> {
    let size = fields.types(room)?;
    fields.end()?;
    Ok(write_typed::append_unknown_attributes(message, &room[..size]))
}

// integrity HEX
fn integrity(
    fields: &mut Fields<'_>,
    room: &mut [u8],
    message: &mut [u8],
) -> Result<Written, Wanted> {
    let size = fields.bytes(room, Wanted::Bytes)?;
    fields.end()?;
    Ok(write_close::append_message_integrity(message, &room[..size]))
}

fn fingerprint(fields: &mut Fields<'_>, message: &mut [u8]) -> Result<Written, Wanted> {
    fields.end()?;
    Ok(write_close::append_fingerprint(message))
}

// The calls on a message. There is room for the bytes that fields say.
fn written(
    call: &[u8],
    fields: &mut Fields<'_>,
    room: &mut [u8],
    message: &mut [u8],
) -> Result<Written, Wanted> {
    match call {
        b"begin" => begun(fields, message),
        b"raw" => raw(fields, room, message),
        b"address" => address(fields, room, message),
        b"text" => text(fields, room, message),
        b"error" => error(fields, room, message),
        b"types" => types(fields, room, message),
        b"integrity" => integrity(fields, room, message),
        b"fingerprint" => fingerprint(fields, message),
        _ => Err(Wanted::Call),
    }
}

impl Buffer {
    pub fn new() -> Buffer {
        Buffer {
            store: [0xAA; LARGEST],
            size: 65552,
            bytes: [0; LONGEST],
        }
    }

    fn all(&self) -> &[u8] {
        self.store.get(..self.size).unwrap_or_default()
    }

    // buffer N
    fn sized(&mut self, fields: &mut Fields<'_>) -> Result<usize, Wanted> {
        let n = fields.number(Wanted::Size)?;
        if n > LARGEST as u64 {
            return Err(Wanted::Size);
        }
        fields.end()?;
        self.store.fill(0xAA);
        self.size = n as usize;
        Ok(self.size)
    }

    // load HEX; a field too many is told first
    fn loaded(&mut self, fields: &mut Fields<'_>) -> Result<usize, Wanted> {
        let mut behind = *fields;
        behind.next();
        behind.end()?;
        let n = fields.hex(&mut self.store)?;
        if n > LARGEST {
            return Err(Wanted::Size);
        }
        self.size = n;
        Ok(n)
    }

    // A line; remarks and blank ones are passed by.
    pub fn line(&mut self, s: &[u8], out: &mut Output) -> Result<(), Wanted> {
        let mut fields = Fields::of(s);
        let call = fields.next();
        if call.is_empty() || is_comment(call) {
            return Ok(());
        }
        match call {
            b"show" => {
                fields.end()?;
                show(out, message_of(self.all()));
            }
            b"dump" => {
                fields.end()?;
                show(out, self.all());
            }
            b"buffer" => ok(out, self.sized(&mut fields)?),
            b"load" => ok(out, self.loaded(&mut fields)?),
            _ => {
                let size = self.size.min(LARGEST);
                let store = &mut self.store[..];
                match written(call, &mut fields, &mut self.bytes, &mut store[..size])? {
                    Ok(size) => ok(out, size),
                    Err(refusal) => {
                        out.note(Status::Fault);
                        write!(out, "no {}", Signed(refusal.number as u64, b'\n'));
                    }
                }
            }
        }
        Ok(())
    }
}

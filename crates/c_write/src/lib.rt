// What C calls: a message begun, raw attributes appended, and the message sealed.
#![tactic(auto)]

ghost use Rattle.std.specs.Prelude.{◌≡◌};
ghost use Rattle.write_raw.specs.Append.{attr, answer, appended};
ghost use Rattle.write_close.specs.Seal.{fingerprint, integrity};
ghost use Rattle.c_write.specs.Written.{told, begun_by, left_by};

use c_wire::Id;
use wire::method::Method;
use wire::refusal::Refusal;
use wire::transaction_id::TransactionId;
use wire::types::class_numbered;

// The message's size from now on, where `number` is 0: a struct of include/cratehoist.h, since C has no `Result`.
#[repr(C)]
#[derive(Clone, Copy)]
pub struct Written {
    pub number: u8,
    pub size: usize,
}

// An answer of the writer in numbers.
pub fn in_numbers(w: Result<usize, Refusal>) -> Written
    ensures { result ≡ told w }
{
    match w {
        Ok(size) => Written { number: 0, size },
        Err(Refusal { number }) => Written { number, size: 0 },
    }
}

// A class above 3 is refused as a method above 4,095 is, by 22.
pub fn cratehoist_begin(buffer: &mut [u8], message_class: u16, method: u16, id: Id) -> Written
    ensures { (result ≡ begun_by buffer.old message_class method) × (buffer.new ≡ left_by buffer.old message_class method id) }
{
    if 3 < message_class {
        return in_numbers(Err(Refusal::METHOD));
    }
    let bytes = id.bytes;
    in_numbers(write_begin::begin(
        buffer,
        class_numbered(message_class),
        Method { code: method },
        TransactionId { bytes },
    ))
}

pub fn cratehoist_append_raw(buffer: &mut [u8], kind: u16, value: &[u8], padding: &[u8]) -> Written
    ensures { (result ≡ told (answer buffer.old 0 (attr kind value.now padding.now)))
        × (buffer.new ≡ appended buffer.old 0 (attr kind value.now padding.now)) }
{
    in_numbers(write_raw::append_raw(buffer, kind, value, padding))
}

pub fn cratehoist_append_fingerprint(buffer: &mut [u8]) -> Written
    ensures { (result ≡ told (answer buffer.old 0 (fingerprint buffer.old)))
        × (buffer.new ≡ appended buffer.old 0 (fingerprint buffer.old)) }
{
    in_numbers(write_close::append_fingerprint(buffer))
}

pub fn cratehoist_append_message_integrity(buffer: &mut [u8], key: &[u8]) -> Written
    ensures { (result ≡ told (answer buffer.old 0 (integrity key.now buffer.old)))
        × (buffer.new ≡ appended buffer.old 0 (integrity key.now buffer.old)) }
{
    in_numbers(write_close::append_message_integrity(buffer, key))
}

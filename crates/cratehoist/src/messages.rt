// A message begun, raw attributes appended, and the message sealed.

ghost use Rattle.std.specs.Prelude.{◌≡◌};
ghost use Rattle.write_raw.specs.Append.{attr, answer, appended};
ghost use Rattle.write_close.specs.Seal.{fingerprint, integrity};
ghost use Rattle.c_write.specs.Written.{told, begun_by, left_by};

use c_wire::Id;
use c_write::Written;

#[unsafe(no_mangle)]
pub extern "C" fn cratehoist_begin(
    buffer: &mut [u8],
    message_class: u16,
    method: u16,
    id: Id,
) -> Written
    ensures { (result ≡ begun_by buffer.old message_class method) × (buffer.new ≡ left_by buffer.old message_class method id) }
{
    c_write::cratehoist_begin(buffer, message_class, method, id)
}

#[unsafe(no_mangle)]
pub extern "C" fn cratehoist_append_raw(
    buffer: &mut [u8],
    kind: u16,
    value: &[u8],
    padding: &[u8],
) -> Written
    ensures { (result ≡ told (answer buffer.old 0 (attr kind value.now padding.now)))
        × (buffer.new ≡ appended buffer.old 0 (attr kind value.now padding.now)) }
{
    c_write::cratehoist_append_raw(buffer, kind, value, padding)
}

#[unsafe(no_mangle)]
pub extern "C" fn cratehoist_append_fingerprint(buffer: &mut [u8]) -> Written
    ensures { (result ≡ told (answer buffer.old 0 (fingerprint buffer.old)))
        × (buffer.new ≡ appended buffer.old 0 (fingerprint buffer.old)) }
{
    c_write::cratehoist_append_fingerprint(buffer)
}

#[unsafe(no_mangle)]
pub extern "C" fn cratehoist_append_message_integrity(buffer: &mut [u8], key: &[u8]) -> Written
    ensures { (result ≡ told (answer buffer.old 0 (integrity key.now buffer.old)))
        × (buffer.new ≡ appended buffer.old 0 (integrity key.now buffer.old)) }
{
    c_write::cratehoist_append_message_integrity(buffer, key)
}

// What a value says, and typed appends.

ghost use Rattle.std.specs.Prelude.{◌≡◌, length};
ghost use Rattle.registry.specs.Rows.{rfc5389};
ghost use Rattle.registry.specs.ErrorCode.{code_value};
ghost use Rattle.read_typed.specs.Typed.{typed_of, part_of, part_at};
ghost use Rattle.write_raw.specs.Append.{answer, appended};
ghost use Rattle.write_typed.specs.Typed.{typed, refusal, text_refusal};
ghost use Rattle.write_error_code.specs.ErrorCode.{code_refusal};
ghost use Rattle.c_write.specs.Written.{told};
ghost use Rattle.c_typed.specs.Typed.{typed_told};
ghost use Rattle.c_typed.specs.Given.{refusal_of, attr_of, error_of};

use c_typed::Typed;
use c_wire::{Address, Id};
use c_write::Written;

#[unsafe(no_mangle)]
pub extern "C" fn cratehoist_typed_value(kind: u16, value: &[u8], id: Id) -> Typed
    ensures { result ≡ typed_told (typed_of rfc5389 kind value.now (record { bytes = id.bytes })) (part_at rfc5389 kind value.now) (length (part_of rfc5389 kind value.now)) }
{
    c_typed::cratehoist_typed_value(kind, value, id)
}

#[unsafe(no_mangle)]
pub extern "C" fn cratehoist_refusal(kind: u16, value: &[u8]) -> u8
    ensures { result ≡ refusal rfc5389 kind value.now }
{
    c_typed::cratehoist_refusal(kind, value)
}

#[unsafe(no_mangle)]
pub extern "C" fn cratehoist_append_text(buffer: &mut [u8], kind: u16, text: &[u8]) -> Written
    ensures { (result ≡ told (answer buffer.old (text_refusal rfc5389 kind text.now) (typed kind text.now)))
        × (buffer.new ≡ appended buffer.old (text_refusal rfc5389 kind text.now) (typed kind text.now)) }
{
    c_typed::cratehoist_append_text(buffer, kind, text)
}

#[unsafe(no_mangle)]
pub extern "C" fn cratehoist_append_unknown_attributes(buffer: &mut [u8], types: &[u8]) -> Written
    ensures { (result ≡ told (answer buffer.old (refusal rfc5389 0x000A types.now) (typed 0x000A types.now)))
        × (buffer.new ≡ appended buffer.old (refusal rfc5389 0x000A types.now) (typed 0x000A types.now)) }
{
    c_typed::cratehoist_append_unknown_attributes(buffer, types)
}

#[unsafe(no_mangle)]
pub extern "C" fn cratehoist_append_address(
    buffer: &mut [u8],
    kind: u16,
    address: Address,
) -> Written
    ensures { (result ≡ told (answer buffer.old (refusal_of kind address) (attr_of buffer.old kind address)))
        × (buffer.new ≡ appended buffer.old (refusal_of kind address) (attr_of buffer.old kind address)) }
{
    c_typed::cratehoist_append_address(buffer, kind, address)
}

#[unsafe(no_mangle)]
pub extern "C" fn cratehoist_append_error_code(
    buffer: &mut [u8],
    code: u16,
    reserved: u32,
    phrase: &[u8],
) -> Written
    ensures { (result ≡ told (answer buffer.old (code_refusal rfc5389 (error_of code reserved) phrase.now) (typed 0x0009 (code_value (error_of code reserved) phrase.now))))
        × (buffer.new ≡ appended buffer.old (code_refusal rfc5389 (error_of code reserved) phrase.now) (typed 0x0009 (code_value (error_of code reserved) phrase.now))) }
{
    c_typed::cratehoist_append_error_code(buffer, code, reserved, phrase)
}

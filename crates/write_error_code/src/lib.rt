// Typed append of an error code with its phrase.
#![tactic(auto)]

ghost use Rattle.std.specs.Prelude.{◌≡◌, ◌+◌, ◌<◌, ◌≤◌, length, take};
ghost use Rattle.registry.specs.Rows.{rfc5389};
ghost use Rattle.registry.specs.ErrorCode.{code_value};
ghost use Rattle.write_begin.specs.Begin.{written_said};
ghost use Rattle.write_raw.specs.Append.{answer, appended};
ghost use Rattle.write_typed.specs.Typed.{typed};
ghost use Rattle.write_error_code.specs.ErrorCode.{code_refusal};

use registry::ErrorCode;
use wire::refusal::Refusal;
use write_typed::{append_value, refusal_of};

// The bytes of an error code and its phrase, with zeros behind: the longest that there can be, since the library uses no heap. The head is
// laid byte by byte, as its definition has it.
fn code_bytes(error: ErrorCode, phrase: &[u8]) -> [u8; 131]
    requires { (error.code < 700) × (error.reserved < 2097152) × (length phrase.now ≤ 127) }
    ensures { take (4 + length phrase.now) result ≡ code_value error phrase.now }
{
    let ErrorCode { code, reserved } = error;
    let mut v = [0u8; 131];
    v[0] = (reserved / 8192) as u8;
    v[1] = (reserved / 32 % 256) as u8;
    v[2] = (reserved % 32 * 8) as u8 + (code / 100) as u8;
    v[3] = (code % 100) as u8;
    v[4..4 + phrase.len()].copy_from_slice(phrase);
    v
}

// Appends ERROR-CODE. What is out of range, code, reserved number or phrase, is not laid out; the bytes of another are judged by the list of types.
pub fn append_error_code(buf: &mut [u8], error: ErrorCode, phrase: &[u8]) -> Result<usize, Refusal>
    ensures { (written_said result ≡ written_said (answer buf.old (code_refusal rfc5389 error phrase.now) (typed 0x0009 (code_value error phrase.now))))
        × (buf.new ≡ appended buf.old (code_refusal rfc5389 error phrase.now) (typed 0x0009 (code_value error phrase.now))) }
{
    let n = phrase.len();
    let ErrorCode { code, reserved } = error;
    if code < 300 || 699 < code || 2097151 < reserved || 127 < n {
        return append_value(buf, Refusal::VALUE.number, 0x0009, phrase);
    }
    let v = code_bytes(error, phrase);
    append_value(buf, refusal_of(0x0009, &v[..4 + n]), 0x0009, &v[..4 + n])
}

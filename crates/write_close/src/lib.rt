// FINGERPRINT and MESSAGE-INTEGRITY appended, each by the writer's own computation.
#![tactic(auto)]

ghost use Rattle.std.specs.Prelude.{◌≡◌};
ghost use Rattle.write_begin.specs.Begin.{written_said};
ghost use Rattle.write_raw.specs.Append.{answer, appended};
ghost use Rattle.write_close.specs.Seal.{fingerprint, integrity};

use big_endian::u16_at;
use fingerprint::{FINGERPRINT, fingerprint_at};
use wire::refusal::Refusal;
use write_raw::append_raw;

// The number that read_integrity has, under the writer's own name for those who only write.
pub const MESSAGE_INTEGRITY: u16 = 0x0008;

// Appends FINGERPRINT.
pub fn append_fingerprint(buf: &mut [u8]) -> Result<usize, Refusal>
    ensures { (written_said result ≡ written_said (answer buf.old 0 (fingerprint buf.old)))
        × (buf.new ≡ appended buf.old 0 (fingerprint buf.old)) }
{
    let p = 20 + u16_at(buf, 2) as usize;
    let v = fingerprint_at(buf, p).to_be_bytes();
    append_raw(buf, FINGERPRINT, &v, b"")
}

// Appends MESSAGE-INTEGRITY under a key.
pub fn append_message_integrity(buf: &mut [u8], key: &[u8]) -> Result<usize, Refusal>
    ensures { (written_said result ≡ written_said (answer buf.old 0 (integrity key.now buf.old)))
        × (buf.new ≡ appended buf.old 0 (integrity key.now buf.old)) }
{
    let body = u16_at(buf, 2);
    let p = 20 + body as usize;
    // A body for which this sum wraps is refused by 25 at the latest.
    let n = body.wrapping_add(24);
    let v = hmac::hmac_front(key, buf, p, n);
    append_raw(buf, MESSAGE_INTEGRITY, &v, b"")
}

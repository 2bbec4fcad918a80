// MESSAGE-INTEGRITY, checked under a key.
#![tactic(auto)]

ghost use Rattle.std.specs.Prelude.{◌≡◌, ◌+◌, ◌-◌, ◌≤◌, length, take, drop};
ghost use Rattle.wire.specs.Refusal.{refused_by};
ghost use Rattle.registry.specs.Rows.{rfc5389};
ghost use Rattle.read_integrity.specs.Integrity.{compared_at, integrity_fault};

use read_first::Found;
use wire::refusal::Refusal;

pub const MESSAGE_INTEGRITY: u16 = 0x0008;

// Whether the value of an attribute is the digest of what stands before it, with the length that ends with this attribute.
fn compare(d: &[u8], key: &[u8], found: Found) -> Result<(), Refusal>
    requires { (20 ≤ found.at) × (found.at + 4 + found.size ≤ length d.now) × (found.at - 20 + 24 ≤ 65535) }
    ensures { result ≡ refused_by (compared_at d.now key.now found.at (take found.size (drop (found.at + 4) d.now))) }
{
    let digest = hmac::hmac_front(key, d, found.at, (found.at - 20 + 24) as u16);
    let value = found.at + 4;
    if hmac::digests::same_digest(digest, &d[value..value + found.size]) {
        return Ok(());
    }
    Err(Refusal::INTEGRITY)
}

// Refused by the reader's number where the datagram is not whole; by 31 where it has no MESSAGE-INTEGRITY, by 32 where the first differs.
pub fn check_integrity(d: &[u8], key: &[u8]) -> Result<(), Refusal>
    ensures { result ≡ refused_by (integrity_fault rfc5389 d.now key.now) }
{
    let reading = read_message::read(d)?;
    if let Err(fault) = reading.attributes {
        return Err(fault.reason);
    }
    match read_first::search(d, MESSAGE_INTEGRITY) {
        None => Err(Refusal::UNSIGNED),
        Some(found) => compare(d, key, found),
    }
}

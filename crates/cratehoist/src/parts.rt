// The first attribute of a type, the realm to use, and the check of MESSAGE-INTEGRITY.

ghost use Rattle.std.specs.Prelude.{◌≡◌};
ghost use Rattle.registry.specs.Rows.{rfc5389};
ghost use Rattle.read_first.specs.First.{first_said, first_in, first, placed};
ghost use Rattle.read_integrity.specs.Integrity.{integrity_fault};
ghost use Rattle.c_value.specs.Part.{first_out, value_in, realm_in};

use c_value::{First, Part};

#[unsafe(no_mangle)]
pub extern "C" fn cratehoist_search(bytes: &[u8], kind: u16) -> First
    ensures { result ≡ first_out (first_said (placed (first_in kind bytes.now))) }
{
    c_value::cratehoist_search(bytes, kind)
}

#[unsafe(no_mangle)]
pub extern "C" fn cratehoist_first_value(datagram: &[u8], kind: u16) -> Part
    ensures { result ≡ value_in (first rfc5389 kind datagram.now) }
{
    c_value::cratehoist_first_value(datagram, kind)
}

#[unsafe(no_mangle)]
pub extern "C" fn cratehoist_realm(datagram: &[u8], configured: &[u8]) -> Part
    ensures { result ≡ realm_in datagram.now configured.now }
{
    c_value::cratehoist_realm(datagram, configured)
}

#[unsafe(no_mangle)]
pub extern "C" fn cratehoist_check_integrity(datagram: &[u8], key: &[u8]) -> u8
    ensures { result ≡ integrity_fault rfc5389 datagram.now key.now }
{
    c_value::cratehoist_check_integrity(datagram, key)
}

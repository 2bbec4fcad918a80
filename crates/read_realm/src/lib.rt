// The realm to use: the message's own, or the one that the site has configured.
#![tactic(auto)]

ghost use Rattle.std.specs.Prelude.{◌≡◌};
ghost use Rattle.registry.specs.Rows.{rfc5389};
ghost use Rattle.read_realm.specs.Realm.{realm_of, realm_at};

pub const REALM: u16 = 0x0014;

// The choice, where both are lent for as long.
fn chosen<'a>(d: &'a [u8], configured: &'a [u8]) -> &'a [u8]
    ensures { (result.now ≡ realm_of rfc5389 d.now configured.now) × (result.ref_ptr ≡ realm_at rfc5389 d.now d.entry.ref_ptr configured.entry.ref_ptr) }
{
    let Some(found) = read_first::find(d, REALM) else {
        return configured;
    };
    let value = found.at + 4;
    &d[value..value + found.size]
}

// The value of the message's first REALM; where it has none or is not whole, the configured realm. A part of what is lent, and no copy.
pub fn realm_to_use<'a, 'b: 'a>(d: &'a [u8], configured: &'b [u8]) -> &'a [u8]
    ensures { (result.now ≡ realm_of rfc5389 d.now configured.now) × (result.ref_ptr ≡ realm_at rfc5389 d.now d.entry.ref_ptr configured.entry.ref_ptr) }
{
    chosen(d, configured)
}

// Typed append of an address.
#![tactic(auto)]

ghost use Rattle.std.specs.Prelude.{◌≡◌, ◌+◌, ◌∷◌, ◌++◌, take};
ghost use Rattle.big_endian.specs.Numbers.{two};
ghost use Rattle.net.specs.Net.{ip_size, address_value};
ghost use Rattle.registry.specs.Rows.{rfc5389, rule_of};
ghost use Rattle.write_begin.specs.Begin.{written_said};
ghost use Rattle.write_raw.specs.Append.{answer, appended};
ghost use Rattle.write_address.specs.Address.{address_refusal, given, id_given, address_attr};

use net::{SocketAddr, socket_addr_xor};
use registry::Rule;
use wire::refusal::Refusal;
use wire::transaction_id::TransactionId;
use write_typed::append_value;

// 23 where a rule is no address's, else 0: a number, since it is the `wrong` of `append_value`.
fn rule_refusal(rule: Rule) -> u8
    ensures { result ≡ address_refusal rule }
{
    match rule {
        Rule::Address | Rule::XorAddress => 0,
        _ => Refusal::VALUE.number,
    }
}

// An address as it is written under a rule.
fn form_of(rule: Rule, addr: SocketAddr, id: TransactionId) -> SocketAddr
    ensures { result ≡ given rule addr id }
{
    match rule {
        Rule::XorAddress => socket_addr_xor(addr, id),
        _ => addr,
    }
}

// The bytes of an address, with all 16 of the IP's: the longest that there can be, since the library uses no heap.
fn address_bytes(family: u8, port: u16, ip: [u8; 16]) -> [u8; 20]
    ensures { result ≡ 0 ∷ family ∷ two port ++ ip }
{
    let mut v = [0u8; 20];
    v[1] = family;
    v[2..4].copy_from_slice(&port.to_be_bytes());
    v[4..].copy_from_slice(&ip);
    v
}

// Those of its form, of which the family has the first.
fn form_bytes(rule: Rule, addr: SocketAddr, id: TransactionId) -> [u8; 20]
    ensures { take (4 + ip_size addr.family) result ≡ address_value (given rule addr id) }
{
    let form = form_of(rule, addr, id);
    address_bytes(form.family.as_u8(), form.port, form.ip)
}

// The ID of the message at the front, and zeros where there is none: the append is then refused by 21.
fn id_at(d: &[u8]) -> TransactionId
    ensures { result ≡ id_given d.now }
{
    match header::front_of(d) {
        Ok(header) => header.id,
        Err(_) => TransactionId { bytes: [0; 12] },
    }
}

// Appends an address, of any type whose rule is one of an address. It is given plain; the XOR form takes the ID of the message at the front.
pub fn append_address(buf: &mut [u8], kind: u16, addr: SocketAddr) -> Result<usize, Refusal>
    ensures { (written_said result ≡ written_said (answer buf.old (address_refusal (rule_of rfc5389 kind)) (address_attr rfc5389 buf.old kind addr)))
        × (buf.new ≡ appended buf.old (address_refusal (rule_of rfc5389 kind)) (address_attr rfc5389 buf.old kind addr)) }
{
    let rule = registry::entry_rule(registry::entry_of(kind));
    let v = form_bytes(rule, addr, id_at(buf));
    let n = 4 + addr.family.ip_size();
    append_value(buf, rule_refusal(rule), kind, &v[..n])
}

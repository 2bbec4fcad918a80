// Socket addresses and their XOR form.
#![tactic(auto)]

ghost use Rattle.std.specs.Prelude.{◌≡◌, ◌++◌, take};
ghost use Rattle.cookie.specs.Cookie.{cookie};
ghost use Rattle.net.specs.Net.{family_number, ip_size, xored, addr_xor};

use wire::transaction_id::TransactionId;

#[derive(Clone, Copy, Debug, PartialEq, Eq)]
pub enum Family {
    Ipv4,
    Ipv6,
}

// An IP of 4 bytes stands in the first four: one form for both families, as `addr_xor` and C have it.
#[derive(Clone, Copy, Debug, PartialEq, Eq)]
pub struct SocketAddr {
    pub family: Family,
    pub port: u16,
    pub ip: [u8; 16],
}

// Conversions by name, as in `wire`.
impl Family {
    pub fn as_u8(self) -> u8
        ensures { result ≡ family_number self }
    {
        match self {
            Family::Ipv4 => 1,
            Family::Ipv6 => 2,
        }
    }

    // How many bytes an IP of the family has.
    pub fn ip_size(self) -> usize
        ensures { result ≡ ip_size self }
    {
        match self {
            Family::Ipv4 => 4,
            Family::Ipv6 => 16,
        }
    }
}

// The buffer's bytes xored in place with the mask's, up to the end of the shorter.
pub fn xor_bytes(buf: &mut [u8], mask: &[u8])
    ensures { buf.new ≡ xored buf.old mask.now }
{
    // What a chain over `iter_mut` wrote isn't known of the slice afterwards, so the places are counted.
    for i in 0..buf.len().min(mask.len()) {
        buf[i] ^= mask[i];
    }
}

fn xor_ip(family: Family, ip: [u8; 16], id: [u8; 12]) -> [u8; 16]
    ensures { result ≡ xored ip (take (ip_size family) (cookie ++ id)) }
{
    let mut out = ip;
    xor_bytes(&mut out, &cookie::MAGIC_COOKIE);
    if let Family::Ipv6 = family {
        xor_bytes(&mut out[4..], &id);
    }
    out
}

// The XOR form of an address, and of an XOR form the address.
#[tactic(auto, unfolding(crate::specs::Net::addr_xor))]
pub fn socket_addr_xor(addr: SocketAddr, transaction_id: TransactionId) -> SocketAddr
    ensures { result ≡ addr_xor addr transaction_id }
{
    SocketAddr {
        family: addr.family,
        port: addr.port ^ 0x2112,
        ip: xor_ip(addr.family, addr.ip, transaction_id.bytes),
    }
}

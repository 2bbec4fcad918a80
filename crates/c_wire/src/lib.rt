// What C calls: the XOR form of an address; and the structs that the other crates for C share. A family is a number there.
#![tactic(auto)]

ghost use Rattle.std.specs.Prelude.{◌≡◌};
ghost use Rattle.c_wire.specs.XorForm.{formed, form_of};

use net::{Family, SocketAddr};
use wire::refusal::Refusal;
use wire::transaction_id::TransactionId;

// A transaction ID.
#[repr(C)]
#[derive(Clone, Copy)]
pub struct Id {
    pub bytes: [u8; 12],
}

// An address; an IP of 4 bytes stands in the first four.
#[repr(C)]
#[derive(Clone, Copy)]
pub struct Address {
    pub family: u8,
    pub port: u16,
    pub ip: [u8; 16],
}

// An address in the other form, where `number` is 0: a struct of include/cratehoist.h, since C has no `Result`.
#[repr(C)]
#[derive(Clone, Copy)]
pub struct XorForm {
    pub number: u8,
    pub address: Address,
}

// The XOR form of an address of a family that there is.
fn form_of(family: Family, address: Address, id: Id) -> XorForm
    ensures { result ≡ formed family address id }
{
    let ip = address.ip;
    let bytes = id.bytes;
    let plain = SocketAddr {
        family: family,
        port: address.port,
        ip: ip,
    };
    let other = net::socket_addr_xor(plain, TransactionId { bytes: bytes });
    let out = other.ip;
    XorForm {
        number: 0,
        address: Address {
            family: address.family,
            port: other.port,
            ip: out,
        },
    }
}

// A family that is none is refused by 12.
pub fn cratehoist_address_xor(address: Address, id: Id) -> XorForm
    ensures { result ≡ form_of address id }
{
    if address.family == 1 {
        return form_of(Family::Ipv4, address, id);
    }
    if address.family == 2 {
        return form_of(Family::Ipv6, address, id);
    }
    XorForm {
        number: Refusal::FAMILY.number,
        address: Address {
            family: 0,
            port: 0,
            ip: [0u8; 16],
        },
    }
}

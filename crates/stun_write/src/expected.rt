// What a script's line was expected to have, where it is no call.
use std::fmt::{self, Display};

#[derive(Clone, Copy)]
pub enum Wanted {
    Call,
    Line,
    End,
    Size,
    Class,
    Method,
    Id,
    AttributeType,
    AddressType,
    TextType,
    Family,
    Port,
    Ip,
    Value,
    Padding,
    Code,
    Bytes,
    Types,
    Reserved,
}

impl Display for Wanted {
    fn fmt<W: fmt::Write>(&self, f: &mut fmt::Formatter<W>) -> fmt::Result {
        f.write_str(match self {
            Wanted::Call =>
                "a call: buffer, load, begin, raw, address, text, error, types, integrity, fingerprint, show or dump",
            Wanted::Line => "a line of at most 262143 characters",
            Wanted::End => "the end of the line",
            Wanted::Size => "a size, 0 to 131072",
            Wanted::Class => "a class, 0 to 3",
            Wanted::Method => "a method, 0 to 4095",
            Wanted::Id => "an ID of 24 hex digits",
            Wanted::AttributeType => "a type, 0 to 65535 or 0x0 to 0xffff",
            Wanted::AddressType => {
                "an address's type: 1 MAPPED-ADDRESS, 0x20 XOR-MAPPED-ADDRESS or 0x8023 ALTERNATE-SERVER"
            }
            Wanted::TextType =>
                "a text's type: 6 USERNAME, 0x14 REALM, 0x15 NONCE or 0x8022 SOFTWARE",
            Wanted::Family => "a family, 1 or 2",
            Wanted::Port => "a port, 0 to 65535",
            Wanted::Ip => "an IP, two hex digits a byte, - for none",
            Wanted::Value => "a value, two hex digits a byte, - for none",
            Wanted::Padding => "padding, two hex digits a byte, - for none",
            Wanted::Code => "a code, 300 to 699",
            Wanted::Bytes => "two hex digits a byte, - for none",
            Wanted::Types => "types parted by commas, - for none",
            Wanted::Reserved => "the reserved bits, 0 to 2097151",
        })
    }
}

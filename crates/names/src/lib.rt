// Names for a person: attributes, error codes, the numbers of the sheet, classes and methods; empty where there is none.
#![tactic(auto, using(std::proofs::lemmas::Bool::Decides::nat_tests), unfolding(crate::specs::Names::find, crate::specs::Names::attribute_name, crate::specs::Names::code_name, crate::specs::Names::number_name, crate::specs::Names::class_name, crate::specs::Names::method_name))]

ghost use Rattle.std.specs.Prelude.{◌≡◌};
ghost use Rattle.names.specs.Names.{attribute_name, code_name, number_name, class_name, method_name};

use wire::method::Method;
use wire::types::MessageClass;

// The name of an attribute type.
pub fn attribute(kind: u16) -> &'static str
    ensures { result.now ≡ attribute_name kind }
{
    match kind {
        0x0001 => "MAPPED-ADDRESS",
        0x0006 => "USERNAME",
        0x0008 => "MESSAGE-INTEGRITY",
        0x0009 => "ERROR-CODE",
        0x000A => "UNKNOWN-ATTRIBUTES",
        0x0014 => "REALM",
        0x0015 => "NONCE",
        0x0020 => "XOR-MAPPED-ADDRESS",
        0x8022 => "SOFTWARE",
        0x8023 => "ALTERNATE-SERVER",
        0x8028 => "FINGERPRINT",
        _ => "",
    }
}

// What an error code means.
pub fn code(n: u16) -> &'static str
    ensures { result.now ≡ code_name n }
{
    match n {
        300 => "Try Alternate",
        400 => "Bad Request",
        401 => "Unauthorized",
        420 => "Unknown Attribute",
        438 => "Stale Nonce",
        500 => "Server Error",
        _ => "",
    }
}

// What a number of docs/NUMBERS.md is called there. A number and no `Refusal`, since 0, by which nothing is refused, has a name too.
pub fn number(n: u8) -> &'static str
    ensures { result.now ≡ number_name n }
{
    match n {
        0 => "all is well",
        1 => "too short",
        2 => "first bits not zero",
        3 => "no cookie",
        4 => "size and length disagree",
        10 => "attribute cut off",
        11 => "wrong size",
        12 => "no such address",
        13 => "no such error code",
        14 => "text not UTF-8",
        15 => "fingerprint differs",
        21 => "no message to add to",
        22 => "no such method",
        23 => "value not allowed",
        24 => "wrong padding",
        25 => "message full",
        26 => "buffer too small",
        31 => "not signed",
        32 => "signature differs",
        _ => "",
    }
}

pub fn class(c: MessageClass) -> &'static str
    ensures { result.now ≡ class_name c }
{
    match c {
        MessageClass::Request => "request",
        MessageClass::Indication => "indication",
        MessageClass::SuccessResponse => "success response",
        MessageClass::ErrorResponse => "error response",
    }
}

pub fn method(m: Method) -> &'static str
    ensures { result.now ≡ method_name m.code }
{
    match m.code {
        1 => "Binding",
        _ => "",
    }
}

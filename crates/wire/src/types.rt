// The class of a message, and the type number that class and method make.
ghost use Rattle.std.specs.Prelude.{◌≡◌, ◌<◌};
ghost use Rattle.wire.specs.TypeNumber.{class_number, at_most_three, type_number, type_from, type_of, type_number_said, from_number_said};

use crate::method::Method;
use crate::refusal::Refusal;

#[derive(Clone, Copy, Debug, PartialEq, Eq)]
pub enum MessageClass {
    Request,
    Indication,
    SuccessResponse,
    ErrorResponse,
}

#[derive(Clone, Copy, Debug, PartialEq, Eq)]
pub struct MessageType {
    pub class: MessageClass,
    pub method: Method,
}

// Conversions have the names of the public calls (docs/PROMISES.md), and no From and TryFrom beside them: one name for one thing.
impl MessageClass {
    // 0 request, 1 indication, 2 success, 3 error.
    pub fn as_u16(self) -> u16
        ensures { result ≡ class_number self }
    {
        match self {
            MessageClass::Request => 0,
            MessageClass::Indication => 1,
            MessageClass::SuccessResponse => 2,
            MessageClass::ErrorResponse => 3,
        }
    }
}

// The class of a number below four; any above is taken for the last.
pub fn class_numbered(n: u16) -> MessageClass
    ensures { class_number result ≡ at_most_three n }
{
    match n {
        0 => MessageClass::Request,
        1 => MessageClass::Indication,
        2 => MessageClass::SuccessResponse,
        _ => MessageClass::ErrorResponse,
    }
}

fn type_number(c: u16, m: u16) -> u16
    requires { (c < 4) × (m < 4096) }
    ensures { result ≡ type_of c m }
{
    m / 128 * 512 + c / 2 * 256 + m / 16 % 8 * 32 + c % 2 * 16 + m % 16
}

impl MessageType {
    // The type number; a method above 4,095 is refused by 22.
    pub fn as_u16(self) -> Result<u16, Refusal>
        ensures { type_number_said result ≡ type_number_said (type_number self) }
    {
        let class = self.class;
        let m = self.method.code;
        if m < 0x1000 {
            return Ok(type_number(class.as_u16(), m));
        }
        Err(Refusal::METHOD)
    }

    // Class and method of a type number; one with a top bit set is refused by 2.
    pub fn from_u16(value: u16) -> Result<MessageType, Refusal>
        ensures { from_number_said result ≡ from_number_said (type_from value) }
    {
        if value < 0x4000 {
            return Ok(MessageType {
                class: class_numbered(value / 256 % 2 * 2 + value / 16 % 2),
                method: Method {
                    code: value / 512 * 128 + value / 32 % 8 * 16 + value % 16,
                },
            });
        }
        Err(Refusal::TYPE)
    }
}

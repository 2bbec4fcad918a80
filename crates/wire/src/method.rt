// The method: a number of twelve bits.
ghost use Rattle.std.specs.Prelude.{◌≡◌};
ghost use Rattle.wire.specs.TypeNumber.{method_made, new_method_said};

use crate::refusal::Refusal;

#[derive(Clone, Copy, Debug, PartialEq, Eq)]
pub struct Method {
    pub code: u16,
}

// Conversions by name, as in `types`.
impl Method {
    // The method of a number; above 4,095 it is refused by 22.
    pub fn new(codepoint: u16) -> Result<Method, Refusal>
        ensures { new_method_said result ≡ new_method_said (method_made codepoint) }
    {
        if codepoint < 0x1000 {
            return Ok(Method { code: codepoint });
        }
        Err(Refusal::METHOD)
    }

    pub fn as_u16(self) -> u16
        ensures { result ≡ self.code }
    {
        self.code
    }
}

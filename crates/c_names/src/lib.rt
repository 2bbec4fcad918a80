// What C calls: names for a person.
#![tactic(auto)]

ghost use Rattle.std.specs.Prelude.{◌≡◌};
ghost use Rattle.names.specs.Names.{attribute_name, code_name, number_name, method_name};
ghost use Rattle.c_names.specs.Name.{told, class_told};

use wire::method::Method;
use wire::types::class_numbered;

// As include/cratehoist.h has it: the first `size` bytes of the text; empty where there is no name.
#[repr(C)]
#[derive(Clone, Copy, Debug, PartialEq, Eq)]
pub struct Name {
    pub text: [u8; 32],
    pub size: usize,
}

#[tactic(auto, unfolding(crate::specs::Name::told))]
fn name_said(name: &str) -> Name
    ensures { result ≡ told name.now }
{
    let mut text = [0u8; 32];
    buffers::put_bytes(&mut text, 0, name.as_bytes());
    Name {
        text,
        size: name.len(),
    }
}

pub fn cratehoist_attribute_name(kind: u16) -> Name
    ensures { result ≡ told (attribute_name kind) }
{
    name_said(names::attribute(kind))
}

pub fn cratehoist_code_name(code: u16) -> Name
    ensures { result ≡ told (code_name code) }
{
    name_said(names::code(code))
}

pub fn cratehoist_number_name(number: u8) -> Name
    ensures { result ≡ told (number_name number) }
{
    name_said(names::number(number))
}

// A class above 3 has no name.
pub fn cratehoist_class_name(message_class: u16) -> Name
    ensures { result ≡ class_told message_class }
{
    if 3 < message_class {
        return Name {
            text: [0u8; 32],
            size: 0,
        };
    }
    name_said(names::class(class_numbered(message_class)))
}

pub fn cratehoist_method_name(method: u16) -> Name
    ensures { result ≡ told (method_name method) }
{
    name_said(names::method(Method { code: method }))
}

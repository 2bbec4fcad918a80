// Names for a person.

ghost use Rattle.std.specs.Prelude.{◌≡◌};
ghost use Rattle.names.specs.Names.{attribute_name, code_name, number_name, method_name};
ghost use Rattle.c_names.specs.Name.{told, class_told};

use c_names::Name;

#[unsafe(no_mangle)]
pub extern "C" fn cratehoist_attribute_name(kind: u16) -> Name
    ensures { result ≡ told (attribute_name kind) }
{
    c_names::cratehoist_attribute_name(kind)
}

#[unsafe(no_mangle)]
pub extern "C" fn cratehoist_code_name(code: u16) -> Name
    ensures { result ≡ told (code_name code) }
{
    c_names::cratehoist_code_name(code)
}

#[unsafe(no_mangle)]
pub extern "C" fn cratehoist_number_name(number: u8) -> Name
    ensures { result ≡ told (number_name number) }
{
    c_names::cratehoist_number_name(number)
}

#[unsafe(no_mangle)]
pub extern "C" fn cratehoist_class_name(message_class: u16) -> Name
    ensures { result ≡ class_told message_class }
{
    c_names::cratehoist_class_name(message_class)
}

#[unsafe(no_mangle)]
pub extern "C" fn cratehoist_method_name(method: u16) -> Name
    ensures { result ≡ told (method_name method) }
{
    c_names::cratehoist_method_name(method)
}

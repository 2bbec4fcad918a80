// The XOR form of an address.

ghost use Rattle.std.specs.Prelude.{◌≡◌};
ghost use Rattle.c_wire.specs.XorForm.{form_of};

use c_wire::{Address, Id, XorForm};

#[unsafe(no_mangle)]
pub extern "C" fn cratehoist_address_xor(address: Address, id: Id) -> XorForm
    ensures { result ≡ form_of address id }
{
    c_wire::cratehoist_address_xor(address, id)
}

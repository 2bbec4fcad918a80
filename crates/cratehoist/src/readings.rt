// The reading and the walk.

ghost use Rattle.std.specs.Prelude.{◌≡◌};
ghost use Rattle.registry.specs.Rows.{rfc5389};
ghost use Rattle.attribute.specs.Walk.{walk_said, walk_at};
ghost use Rattle.read_message.specs.Reading.{reading_of};
ghost use Rattle.c_read.specs.Reading.{said, step_out};

use c_read::{Reading, Step};

#[unsafe(no_mangle)]
pub extern "C" fn cratehoist_read(datagram: &[u8]) -> Reading
    ensures { result ≡ said (reading_of rfc5389 datagram.now) }
{
    c_read::cratehoist_read(datagram)
}

#[unsafe(no_mangle)]
pub extern "C" fn cratehoist_walk(datagram: &[u8], place: usize) -> Step
    ensures { result ≡ step_out (walk_said (walk_at datagram.now place)) }
{
    c_read::cratehoist_walk(datagram, place)
}

// Bytes that are read.
ghost use Rattle.std.specs.Prelude.{◌≤◌, length, IfOk};

use crate::complaints::unread;
use crate::status::Told;
use std::io::Read;

// A datagram above 65,555 bytes is answered by its header and by being too long, so its first 65,556 bytes do.
pub const MOST: usize = 65556;

// Reads once, and answers how many bytes that gave: none at the end.
pub fn read_some<R: Read>(
    rt: HostRuntime,
    source: &mut R,
    name: &str,
    room: &mut [u8],
) -> Result<usize, Told>
    ensures { IfOk result (λ n. n ≤ length room.old) }
{
    source.read(room).map_err(|error| unread(rt, name, &error))
}

// Published vectors of datagrams, run: each line is a leaf, a vector's name, and what our code answers. `stdout` has what was published.
#![tactic(auto)]

mod message_vectors;
mod printing;
mod reader_vectors;

use printing::Lines;

fn main(rt: HostRuntime) {
    let mut out = Lines { rt };
    reader_vectors::run(&mut out);
    message_vectors::run(&mut out);
}

// Published vectors of the sums and of UTF-8, run: each line is a leaf, a vector's name, and what our code answers. `stdout` has what
// was published.
#![tactic(auto)]

mod crc32_vectors;
mod printing;
mod sha_vectors;
mod utf8_vectors;

use printing::Lines;

// The bytes 0, 1, 2 and so on, up to 255.
fn counting<const N: usize>() -> [u8; N] {
    let mut s = [0; N];
    for (b, n) in s.iter_mut().zip(0..=255) {
        *b = n;
    }
    s
}

// How a line ends.
fn word(yes: bool) -> &'static str {
    if yes { " yes\n" } else { " no\n" }
}

fn main(rt: HostRuntime) {
    let mut out = Lines { rt };
    crc32_vectors::run(&mut out);
    utf8_vectors::run(&mut out);
    sha_vectors::run(&mut out);
}

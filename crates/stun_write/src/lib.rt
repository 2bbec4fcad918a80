// stun write: a script of calls on one buffer, each answered by a line. Every rule is the library's.
#![tactic(auto)]

mod calls;
mod expected;
mod fields;
mod script;

use calls::Buffer;
use expected::Wanted;
use script::{Line, Script};
use stun_io::output::Output;
use stun_io::status::{Status, Told};

// A line of the script.
fn answer(
    script: &Script,
    line: Line,
    buffer: &mut Buffer,
    out: &mut Output,
) -> Result<(), Wanted> {
    buffer.line(script.text(line)?, out)
}

// All of standard input, as long as the answers can be written; answers what to end with.
pub fn run(rt: HostRuntime) -> Status {
    let mut script = Script::new(rt);
    let mut buffer = Buffer::new();
    let mut out = Output::new(rt);
    // as many turns as can ever be: what a pipe still has is no measure
    for _ in 0..u64::MAX {
        if out.failed() {
            break;
        }
        match script.next() {
            Ok(Some(line)) => {
                if let Err(wanted) = answer(&script, line, &mut buffer, &mut out) {
                    out.note(Status::Fault);
                    write!(out, "? expected {wanted}\n");
                }
                // answers are written when no further line is at hand, so that a person can go on
                if script.idle() {
                    out.flush();
                }
            }
            Ok(None) => break,
            Err(Told) => {
                out.note(Status::Trouble);
                break;
            }
        }
    }
    out.finish()
}

// What the program ends with.
use std::io::{Error, ErrorKind};
use std::process::ExitCode;

// In the order in which they go before one another: an answer at fault, a thing that couldn't be read, written or understood, and a
// pipe that nobody reads. The last would have ended the program by a signal, had the library not turned that off.
#[derive(Clone, Copy, PartialEq, Eq, PartialOrd, Ord)]
pub enum Status {
    Good,
    Fault,
    Trouble,
    Broken,
}

// A broken pipe ends it quietly, with what a shell says of that signal.
impl From<Status> for ExitCode {
    fn from(status: Status) -> ExitCode {
        ExitCode::from(match status {
            Status::Good => 0,
            Status::Fault => 1,
            Status::Trouble => 2,
            Status::Broken => 141,
        })
    }
}

// What a write that failed makes it.
impl From<&Error> for Status {
    fn from(error: &Error) -> Status {
        match error.kind() {
            ErrorKind::BrokenPipe => Status::Broken,
            _ => Status::Trouble,
        }
    }
}

// Why there is no answer has been told on standard error: the program ends with trouble.
#[derive(Clone, Copy)]
pub struct Told;

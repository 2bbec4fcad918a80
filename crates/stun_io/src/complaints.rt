// Standard error: what is at fault, and the system's own words on a call that failed.
use crate::status::{Status, Told};
use std::fmt::{self, Display};
use std::io::{Error, Write};

// What is complained of. Each piece is written at once and for itself, so that where a pipe has no room for one a smaller one may still go.
#[derive(Clone, Copy)]
pub struct Complaint {
    rt: HostRuntime,
    heard: bool,
}

impl Complaint {
    // Of which nothing was said yet.
    pub fn new(rt: HostRuntime) -> Complaint {
        Complaint { rt, heard: true }
    }

    // Does somebody read what was said? Not where the pipe is broken.
    pub fn is_heard(&self) -> bool {
        self.heard
    }

    pub fn put(&mut self, s: &[u8]) {
        if let Err(error) = self.rt.stderr().write_all(s) {
            self.heard &= Status::from(&error) != Status::Broken;
        }
    }

    // What `write!` calls: it never fails, since a piece that can't be written keeps none back.
    pub fn write_fmt(&mut self, text: impl Display + Drop) {
        let _ = fmt::Write::write_fmt(self, text);
    }
}

impl fmt::Write for Complaint {
    fn write_str(&mut self, s: &str) -> fmt::Result {
        self.put(s.as_bytes());
        Ok(())
    }
}

// Tells why a call of the system failed, behind what it was about, and without the number in brackets that std has behind the
// system's words.
pub fn fail(rt: HostRuntime, what: &str, error: &Error) -> Told {
    let mut text = [0u8; 160];
    let mut room: &mut [u8] = &mut text;
    let _ = write!(room, "{error} (");
    let end = text.iter().position(|b| *b == b'(').unwrap_or(text.len());
    let mut complaint = Complaint::new(rt);
    write!(complaint, "{what}: ");
    complaint.put(&text[..end.saturating_sub(1)]);
    complaint.put(b"\n");
    Told
}

// The same of a file that can't be read.
pub fn unread(rt: HostRuntime, name: &str, error: &Error) -> Told {
    Complaint::new(rt).put(b"stun: ");
    fail(rt, name, error)
}

// What a write to standard output that failed makes the program end with, once it has told why; a broken pipe says nothing.
pub fn unwritten(rt: HostRuntime, error: &Error) -> Status {
    let status = Status::from(error);
    if status != Status::Broken {
        fail(rt, "stun: standard output", error);
    }
    status
}

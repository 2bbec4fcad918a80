// Standard output through one buffer, which is written when it is full: for many answers.
ghost use Rattle.std.specs.Prelude.{◌≤◌};

use crate::complaints::unwritten;
use crate::status::Status;
use std::fmt;
use std::io::{Error, Result, Write};

const ROOM: usize = 65536;

// The system's number for a pipe that nobody reads.
const EPIPE: i32 = 32;

// What waits to be written stands at the front of the buffer, which is an array as all of the program's are: no input ends it for want
// of memory. Beside it the system's number for the first write that failed (a number, since an error can't be copied), and what the input
// makes the program end with.
#[derive(Clone, Copy)]
pub struct Output {
    rt: HostRuntime,
    buf: [u8; ROOM],
    waiting: usize,
    failure: Option<i32>,
    status: Status,
    ghost inside: { waiting ≤ 65536 },
}

impl Output {
    // Of which nothing was said yet.
    pub fn new(rt: HostRuntime) -> Output {
        Output {
            rt,
            buf: [0; ROOM],
            waiting: 0,
            failure: None,
            status: Status::Good,
        }
    }

    // Did a write fail?
    pub fn failed(&self) -> bool {
        self.failure.is_some()
    }

    // Did a pipe break? Nothing more is to be told then.
    pub fn broken(&self) -> bool {
        self.failure == Some(EPIPE)
    }

    // Notes that nobody reads what is complained of, which ends the program as a broken pipe of standard output does.
    pub fn unheard(&mut self) {
        self.failure = Some(EPIPE);
    }

    // Notes that some input was at fault, or couldn't be read, which has been told.
    pub fn note(&mut self, status: Status) {
        self.status = self.status.max(status);
    }

    // Notes a write that failed: after it nothing more is written.
    fn noted(&mut self, said: Result<()>) {
        if let Err(error) = said {
            self.failure = Some(error.raw_os_error().unwrap_or(0));
        }
    }

    // What waits.
    fn kept(&self) -> &[u8] {
        &self.buf[..self.waiting]
    }

    // Writes what waits.
    pub fn flush(&mut self) {
        if !self.failed() {
            let said = self.rt.stdout().write_all(self.kept());
            self.noted(said);
        }
        self.waiting = 0;
    }

    // Lays bytes behind what waits, where there is room.
    fn lay(&mut self, s: &[u8]) -> bool {
        if s.len() > ROOM - self.waiting {
            return false;
        }
        let end = self.waiting + s.len();
        self.buf[self.waiting..end].copy_from_slice(s);
        self.waiting = end;
        true
    }

    // What is longer than the whole buffer is written at once.
    pub fn put(&mut self, s: &[u8]) {
        if self.lay(s) {
            return;
        }
        self.flush();
        if !self.lay(s) && !self.failed() {
            let said = self.rt.stdout().write_all(s);
            self.noted(said);
        }
    }

    // Writes what is left, and answers what the program is to end with: as a write that failed makes it, which is told, else as the
    // input did.
    pub fn finish(&mut self) -> Status {
        self.flush();
        match self.failure {
            Some(code) => unwritten(self.rt, &Error::from_raw_os_error(code)),
            None => self.status,
        }
    }

    // What `write!` calls: it never fails, since a write that does is noted here.
    pub fn write_fmt(&mut self, text: impl fmt::Display + Drop) {
        let _ = fmt::Write::write_fmt(self, text);
    }
}

impl fmt::Write for Output {
    fn write_str(&mut self, s: &str) -> fmt::Result {
        self.put(s.as_bytes());
        Ok(())
    }
}

// A number and the sign behind it, laid as one piece: where the buffer is full, what waits is written before both.
#[derive(Clone, Copy)]
pub struct Signed(pub u64, pub u8);

impl fmt::Display for Signed {
    fn fmt<W: fmt::Write>(&self, f: &mut fmt::Formatter<W>) -> fmt::Result {
        let Signed(n, sign) = *self;
        let mut text = [0u8; 20];
        let size = io::decimal(n, &mut text);
        let Some(behind) = text.get_mut(size) else {
            // twenty digits: the sign goes for itself
            return write!(f, "{n}{}", char::from(sign));
        };
        *behind = sign;
        let text = text.get(..=size).unwrap_or_default();
        f.write_str(std::str::from_utf8(text).unwrap_or_default())
    }
}

// Bytes in hex, two digits each; 128 at a step, since byte by byte `lines --values` takes twice as long.
#[derive(Clone, Copy)]
pub struct Hex<'a>(pub &'a [u8]);

impl<'a> fmt::Display for Hex<'a> {
    fn fmt<W: fmt::Write>(&self, f: &mut fmt::Formatter<W>) -> fmt::Result {
        for part in self.0.chunks(128) {
            let mut digits = [0u8; 256];
            let n = hex_text::show(part, &mut digits);
            let text = digits.get(..n.saturating_mul(2)).unwrap_or_default();
            f.write_str(std::str::from_utf8(text).unwrap_or_default())?;
        }
        Ok(())
    }
}

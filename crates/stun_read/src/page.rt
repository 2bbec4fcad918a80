// Standard output piece by piece, for a person, with names and colours.
use std::fmt::{self, Display};
use std::io::{IsTerminal, Write};
use stun_io::complaints::unwritten;
use stun_io::status::Status;

// Are there colours? And what a write that failed makes the program end with.
#[derive(Drop)]
pub struct Page {
    rt: HostRuntime,
    colour: bool,
    failure: Option<Status>,
}

impl Page {
    // Of which nothing was said yet.
    pub fn new(rt: HostRuntime) -> Page {
        Page {
            rt,
            colour: rt.stdout().is_terminal(),
            failure: None,
        }
    }

    // A piece, which is written for itself: where a pipe has no room for one, a smaller one may still go.
    pub fn print(&mut self, s: &[u8]) {
        if let Err(error) = self.rt.stdout().write_all(s) {
            self.failure = Some(Status::from(&error));
        }
    }

    // What `write!` calls: it answers nothing, since a write that fails is noted here.
    pub fn write_fmt(&mut self, text: impl Display + Drop) {
        let _ = fmt::Write::write_fmt(self, text);
    }

    pub fn blanks(&mut self, n: usize) {
        self.print(b"                    ".get(..n).unwrap_or_default());
    }

    // A number at the right of a column: first the blanks, then the digits.
    pub fn column(&mut self, n: usize, width: usize) {
        let mut digits = [0u8; 20];
        let mut room: &mut [u8] = &mut digits;
        let _ = write!(room, "{n}");
        let size = 20usize.saturating_sub(room.len());
        self.blanks(width.saturating_sub(size));
        self.print(digits.get(..size).unwrap_or_default());
    }

    // A number in hex, of two digits a byte, as one piece.
    pub fn digits<const N: usize>(&mut self, bytes: [u8; N]) {
        let mut digits = [0u8; 8];
        let n = hex_text::show(&bytes, &mut digits);
        self.print(digits.get(..n.saturating_mul(2)).unwrap_or_default());
    }

    // Bytes in hex, and a dash for none.
    pub fn hex(&mut self, s: &[u8]) {
        if s.is_empty() {
            self.print(b"-");
        }
        for b in s {
            self.digits([*b]);
        }
    }

    // Words in a colour where there are colours.
    fn painted(&mut self, colour: &str, words: impl Display + Drop) {
        if self.colour {
            write!(self, "{colour}{words}\x1b[0m");
        } else {
            write!(self, "{words}");
        }
    }

    pub fn good(&mut self, words: impl Display + Drop) {
        self.painted("\x1b[32m", words);
    }

    pub fn bad(&mut self, words: impl Display + Drop) {
        self.painted("\x1b[1;31m", words);
    }

    // The end of the last line: where it can't be written, it tells why.
    pub fn end(&mut self) {
        if let Err(error) = self.rt.stdout().write_all(b"\n") {
            self.failure = Some(unwritten(self.rt, &error));
        }
    }

    // What the program is to end with, where the answer makes it end with n.
    pub fn status(&self, n: u8) -> Status {
        let found = if n == 0 { Status::Good } else { Status::Fault };
        self.failure.unwrap_or(found)
    }
}

impl fmt::Write for Page {
    fn write_str(&mut self, s: &str) -> fmt::Result {
        self.print(s.as_bytes());
        Ok(())
    }
}

// A byte in hex, as one piece.
#[derive(Clone, Copy)]
pub struct Digits(pub u8);

impl Display for Digits {
    fn fmt<W: fmt::Write>(&self, f: &mut fmt::Formatter<W>) -> fmt::Result {
        let mut digits = [0u8; 2];
        hex_text::show(&[self.0], &mut digits);
        f.write_str(std::str::from_utf8(&digits).unwrap_or_default())
    }
}

// A number of docs/NUMBERS.md and what it is called there.
#[derive(Clone, Copy)]
pub struct Number(pub u8);

impl Display for Number {
    fn fmt<W: fmt::Write>(&self, f: &mut fmt::Formatter<W>) -> fmt::Result {
        let n = self.0;
        write!(f, "{n}, {}", names::number(n))
    }
}

// Standard output, piece by piece. A file of its own in each program of vectors: they have no library beside them but what they run.
use std::fmt;
use std::io::Write;

// What can't be written is let go: whoever compares the output sees what is missing. What comes behind it is tried all the same, and a
// pipe that is nearly full may still take a smaller piece. Each literal part of a format is a piece, and so is each argument.
#[derive(Drop)]
pub struct Lines {
    pub rt: HostRuntime,
}

impl Lines {
    pub fn put(&mut self, s: &[u8]) {
        let _ = self.rt.stdout().write_all(s);
    }

    // A text as one piece, which it fills: a format writes the noughts in front of a number apart.
    pub fn fill(&mut self, piece: &mut [u8], text: impl fmt::Display + Drop) {
        let _ = write!(&mut piece[..], "{text}");
        self.put(piece);
    }

    // Bytes in hex, a piece each.
    pub fn hex(&mut self, s: &[u8]) {
        for b in s {
            self.fill(&mut [0; 2], format_args!("{b:02x}"));
        }
    }

    // What `write!` calls: it never fails, since a write that does is let go.
    pub fn write_fmt(&mut self, text: impl fmt::Display + Drop) {
        let _ = fmt::Write::write_fmt(self, text);
    }
}

impl fmt::Write for Lines {
    fn write_str(&mut self, s: &str) -> fmt::Result {
        self.put(s.as_bytes());
        Ok(())
    }
}

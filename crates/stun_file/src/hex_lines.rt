// Hex text taken in piece by piece.
use stun_io::words::is_blank;

// Where reading hex text stands: how many digits there were and the last of them, line and column, and whether the line
// is a comment.
// The last digit counts only where their number is odd.
#[derive(Clone, Copy)]
pub struct Reached {
    pub digits: u64,
    last: u8,
    line: u64,
    column: u64,
    comment: bool,
}

// Where a character stands that is no digit.
#[derive(Clone, Copy)]
pub struct BadDigit {
    pub line: u64,
    pub column: u64,
}

impl Reached {
    // Before the first character.
    pub fn start() -> Reached {
        Reached {
            digits: 0,
            last: 0,
            line: 1,
            column: 0,
            comment: false,
        }
    }

    // Every second digit makes a byte with the one before it, kept as long as there is room.
    fn digit(&mut self, b: u8, raw: &mut [u8]) {
        if self.digits % 2 == 1 {
            let mut byte = [0u8; 1];
            let _ = hex_text::unhex(&[self.last, b], &mut byte);
            buffers::put_bytes(raw, (self.digits / 2) as usize, &byte);
        }
        self.last = b;
        self.digits = self.digits.saturating_add(1);
    }

    fn character(&mut self, b: u8, raw: &mut [u8]) -> Result<(), BadDigit> {
        if b == b'\n' {
            self.line = self.line.saturating_add(1);
            self.column = 0;
            self.comment = false;
            return Ok(());
        }
        if b == b'#' && self.column == 0 {
            self.comment = true;
        }
        self.column = self.column.saturating_add(1);
        if self.comment || is_blank(b) {
            return Ok(());
        }
        if !b.is_ascii_hexdigit() {
            return Err(BadDigit {
                line: self.line,
                column: self.column,
            });
        }
        self.digit(b, raw);
        Ok(())
    }

    // More of the text; it stops at the first character that is at fault.
    pub fn gather(&mut self, s: &[u8], raw: &mut [u8]) -> Result<(), BadDigit> {
        for b in s {
            self.character(*b, raw)?;
        }
        Ok(())
    }
}

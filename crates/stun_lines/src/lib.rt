// stun lines: a line of hex a datagram, a line of answer each.
#![tactic(auto)]

ghost use Rattle.std.specs.Prelude.{◌≤◌, ◌<◌, length, IfSome};

pub mod answers;
mod progress;

use answers::{Job, answer};
use hex_text::HexFault;
use progress::Watch;
use stun_io::complaints::Complaint;
use stun_io::input::{MOST, read_some};
use stun_io::output::Output;
use stun_io::status::{Status, Told};
use stun_io::words::is_comment;

// An array, since the program asks for no memory. As much of the input as is kept: more than the digits of a datagram's first bytes.
const INPUT: usize = 131328;

// The column of a character that is no digit, and whether it is a carriage return.
#[derive(Clone, Copy)]
struct Bad {
    column: u64,
    cr: bool,
}

// Of a line that is longer than the input buffer: how many characters are past, and the first that is no digit.
#[derive(Clone, Copy)]
struct Long {
    seen: u64,
    bad: Option<Bad>,
}

impl Long {
    // More of the line.
    fn more(&mut self, s: &[u8]) {
        if self.bad.is_none() {
            let at = digits::first_bad(s);
            if let Some(b) = s.get(at) {
                self.bad = Some(Bad {
                    column: self.seen.saturating_add(at as u64).saturating_add(1),
                    cr: *b == b'\r',
                });
            }
        }
        self.seen = self.seen.saturating_add(s.len() as u64);
    }
}

// How many lines are past and were answered, the long line that is under way, and the first bytes of a datagram, in an array: the
// program asks for no memory.
#[derive(Drop)]
struct Lines<'a> {
    rt: HostRuntime,
    job: Job<'a>,
    out: Output,
    line: u64,
    done: u64,
    long: Option<Long>,
    raw: [u8; MOST],
}

impl<'a> Lines<'a> {
    // The line's datagram has so many bytes, of which the first are there.
    fn answer(&mut self, size: usize) {
        answer(&mut self.out, &self.raw[..size.min(MOST)], self.job);
    }

    // The line is no hex: a character is no digit, or where there is none, the digits are an odd number.
    fn no_hex(&mut self, column: Option<u64>) {
        if self.out.broken() {
            return;
        }
        let line = self.line;
        let mut complaint = Complaint::new(self.rt);
        write!(complaint, "stun: line {line}");
        match column {
            Some(column) => write!(complaint, ", column {column}: not a hex digit\n"),
            None => complaint.put(b": an odd number of hex digits\n"),
        }
        if complaint.is_heard() {
            self.out.note(Status::Fault);
            self.out.put(b"?\n");
        } else {
            self.out.unheard();
        }
    }

    // One line, without its end, which may be of two characters.
    fn one(&mut self, s: &[u8]) {
        let s = s.strip_suffix(b"\r").unwrap_or(s);
        match hex_text::unhex(s, &mut self.raw) {
            Ok(size) => self.answer(size),
            Err(HexFault::Bad(p)) => self.no_hex(Some((p as u64).saturating_add(1))),
            Err(HexFault::Odd) => self.no_hex(None),
        }
    }

    // Where a carriage return is all that is bad, and the last character, it is of the line's end.
    fn one_long(&mut self, line: Long) {
        let digits = match line.bad {
            None => line.seen,
            Some(bad) if bad.cr && bad.column == line.seen => line.seen.saturating_sub(1),
            Some(bad) => {
                self.no_hex(Some(bad.column));
                return;
            }
        };
        if digits % 2 == 0 {
            self.answer(MOST);
        } else {
            self.no_hex(None);
        }
    }

    // The end of a line, or all of it where it isn't long.
    fn ended(&mut self, s: &[u8]) {
        self.line = self.line.saturating_add(1);
        if let Some(mut long) = self.long.take() {
            long.more(s);
            self.one_long(long);
        } else if is_comment(s) {
            return;
        } else {
            self.one(s);
        }
        self.done = self.done.saturating_add(1);
    }

    // The lines that end in s; answers how much of it they take.
    fn whole(&mut self, s: &[u8]) -> usize
        ensures { result ≤ length s.now }
    {
        let mut rest = s;
        while let Some(size) = rest.iter().position(|b| *b == b'\n') {
            self.ended(&rest[..size]);
            rest = &rest[size + 1..];
        }
        s.len() - rest.len()
    }

    // The input buffer is full and has no line end; answers how much of it is kept. Of a remark its sign is enough; a long line's
    // first bytes go to raw, and nothing else of it is kept but what it comes to.
    fn full(&mut self, s: &[u8]) -> usize
        ensures { result ≤ 1 }
    {
        if self.long.is_none() {
            if is_comment(s) {
                return 1;
            }
            let _ = hex_text::unhex(&s[..s.len().min(2 * MOST)], &mut self.raw);
        }
        let mut long = self.long.unwrap_or(Long { seen: 0, bad: None });
        long.more(s);
        self.long = Some(long);
        0
    }

    // The buffer has bytes up to an end: whole lines are answered, and the rest moves to the front; answers how much that is.
    fn filled(&mut self, input: &mut [u8; INPUT], end: usize) -> usize
        requires { end ≤ 131328 }
        ensures { result < 131328 }
    {
        let past = self.whole(&input[..end]);
        input.copy_within(past..end, 0);
        let have = end - past;
        if have < INPUT {
            return have;
        }
        self.full(input)
    }

    // Reads once behind what is kept; answers how much is kept then, or nothing where no more comes. Where the input has ended, the
    // last line gets the line end that it has not.
    fn turn(&mut self, input: &mut [u8; INPUT], have: usize) -> Option<usize>
        requires { have < 131328 }
        ensures { IfSome result (λ n. n < 131328) }
    {
        let mut stdin = self.rt.stdin();
        match read_some(self.rt, &mut stdin, "standard input", &mut input[have..]) {
            Ok(0) => {
                if have > 0 || self.long.is_some() {
                    input[have] = b'\n';
                    self.filled(input, have + 1);
                }
                None
            }
            Ok(n) => Some(self.filled(input, have + n)),
            Err(Told) => {
                self.out.note(Status::Trouble);
                None
            }
        }
    }
}

// All of standard input, as long as the answers can be written; answers what to end with.
pub fn run(rt: HostRuntime, job: Job<'_>) -> Status {
    let mut input = [0u8; INPUT];
    let mut watch = Watch::begin(rt);
    let mut lines = Lines {
        rt,
        job,
        out: Output::new(rt),
        line: 0,
        done: 0,
        long: None,
        raw: [0; MOST],
    };
    let mut have = 0;
    // as many turns as can ever be: what a pipe still has is no measure
    for _ in 0..u64::MAX {
        let kept = lines.turn(&mut input, have);
        if let Some(watch) = &mut watch {
            if !lines.out.broken() {
                watch.tick(lines.done);
            }
        }
        match kept {
            Some(n) if !lines.out.failed() => have = n,
            _ => break,
        }
    }
    if let Some(watch) = &watch {
        if !lines.out.broken() {
            watch.end(lines.done);
        }
    }
    lines.out.finish()
}

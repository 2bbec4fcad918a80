// The lines of a script, which is standard input.
ghost use Rattle.std.specs.Prelude.{◌≡◌, ◌-◌, ◌≤◌, length};

use crate::expected::Wanted;
use stun_io::input::read_some;
use stun_io::status::Told;
use stun_io::words::is_comment;

// As many characters as a line has at most, with its end.
pub const LONGEST: usize = 262144;

// How much of the buffer, which is an array since the program asks for no memory, is read, where the next line starts, and whether the
// input has ended.
#[derive(Drop)]
pub struct Script {
    rt: HostRuntime,
    input: [u8; LONGEST],
    start: usize,
    have: usize,
    over: bool,
    ghost order: { start ≤ have },
    ghost inside: { have ≤ 262144 },
}

// Where a line stands, without its end. Of one that is longer than the buffer only the end is there.
#[derive(Clone, Copy)]
pub enum Line {
    Within { start: usize, end: usize },
    Long,
}

impl Line {
    fn of(long: bool, start: usize, end: usize) -> Line {
        if long {
            Line::Long
        } else {
            Line::Within { start, end }
        }
    }
}

impl Script {
    // Before the first line.
    pub fn new(rt: HostRuntime) -> Script {
        Script {
            rt,
            input: [0; LONGEST],
            start: 0,
            have: 0,
            over: false,
        }
    }

    // What was read and isn't used.
    fn rest(&self) -> &[u8]
        ensures { length result.now ≡ self.now.have - self.now.start }
    {
        &self.input[self.start..self.have]
    }

    // Has all that was read been used?
    pub fn idle(&self) -> bool {
        self.start == self.have
    }

    pub fn text(&self, line: Line) -> Result<&[u8], Wanted> {
        match line {
            Line::Within { start, end } => self.input.get(start..end).ok_or(Wanted::Line),
            Line::Long => Err(Wanted::Line),
        }
    }

    // The line whose end was read.
    fn ended(&mut self, long: bool) -> Option<Line> {
        let size = self.rest().iter().position(|b| *b == b'\n')?;
        let start = self.start;
        let end = start + size;
        self.start = end + 1;
        Some(Line::of(long, start, end))
    }

    // The line that the input ends in, if there is one.
    fn last(&mut self, long: bool) -> Option<Line> {
        let (start, end) = (self.start, self.have);
        self.start = end;
        (long || start < end).then_some(Line::of(long, start, end))
    }

    // Moves what isn't used to the front.
    fn settle(&mut self)
        ensures { self.new.start ≡ 0 }
    {
        let (start, have) = (self.start, self.have);
        self.input.copy_within(start..have, 0);
        self.start = 0;
        self.have = have - start;
    }

    // Reads behind what is there; where nothing more comes, the input has ended.
    fn read(&mut self) -> Result<(), Told> {
        let have = self.have;
        let mut stdin = self.rt.stdin();
        let n = read_some(
            self.rt,
            &mut stdin,
            "standard input",
            &mut self.input[have..],
        )?;
        self.over = n == 0;
        self.have = have + n;
        Ok(())
    }

    // The next line. The last may have no line end.
    pub fn next(&mut self) -> Result<Option<Line>, Told> {
        let mut long = false;
        // as many turns as can ever be
        for _ in 0..u64::MAX {
            if let Some(line) = self.ended(long) {
                return Ok(Some(line));
            }
            if self.over {
                return Ok(self.last(long));
            }
            self.settle();
            if self.have < LONGEST {
                self.read()?;
            } else if !long && is_comment(&self.input) {
                // of a remark its sign is enough
                self.have = 1;
            } else {
                long = true;
                self.have = 0;
            }
        }
        Ok(None)
    }
}

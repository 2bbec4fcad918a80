// One datagram of a file or of standard input, as raw bytes or as hex text.
#![tactic(auto)]

ghost use Rattle.std.specs.Prelude.{◌≤◌, IfOk};

mod hex_lines;

use hex_lines::{BadDigit, Reached};
use std::fs::File;
use std::io::Read;
use stun_io::complaints::{Complaint, unread};
use stun_io::input::read_some;
use stun_io::status::Told;
use stun_io::words::is_blank;

// As much as is read at a time, into an array: the program asks for no memory.
const FILE: usize = 65600;

// A datagram's first bytes, as many as were kept, and how many there are in all.
#[derive(Clone, Copy)]
pub struct Found<'a> {
    pub bytes: &'a [u8],
    pub total: u64,
}

// How the bytes of a file are to be taken; where nothing is said they tell it themselves.
#[derive(Clone, Copy)]
pub enum Form {
    Hex,
    Raw,
}

// Text has only characters that can be printed, and white ones: no message does, since the cookie's second byte is 18.
fn is_text(s: &[u8]) -> bool {
    s.iter()
        .all(|b| matches!(b, b' '..=b'~' | b'\n') || is_blank(*b))
}

// Of more bytes than there is room for the first are kept.
fn keep(s: &[u8], raw: &mut [u8]) -> u64 {
    let n = s.len().min(raw.len());
    raw[..n].copy_from_slice(&s[..n]);
    s.len() as u64
}

// What is read, and what it is called where it is at fault.
#[derive(Drop)]
struct Source<'a, R> {
    rt: HostRuntime,
    reader: R,
    name: &'a str,
}

impl<'a, R: Read> Source<'a, R> {
    // Reads until the buffer is full or the file ends, and answers how many bytes there are.
    fn fill(&mut self, file: &mut [u8; FILE]) -> Result<usize, Told>
        ensures { IfOk result (λ n. n ≤ 65600) }
    {
        let mut have = 0;
        while have < FILE {
            let n = read_some(self.rt, &mut self.reader, self.name, &mut file[have..])?;
            if n == 0 {
                break;
            }
            have += n;
        }
        Ok(have)
    }

    fn bad_digit(&self, at: BadDigit) -> Told {
        let name = self.name;
        let BadDigit { line, column } = at;
        let mut complaint = Complaint::new(self.rt);
        write!(
            complaint,
            "stun: {name}: line {line}, column {column}: not a hex digit\n"
        );
        Told
    }

    fn odd(&self) -> Told {
        let name = self.name;
        let mut complaint = Complaint::new(self.rt);
        write!(complaint, "stun: {name}: an odd number of hex digits\n");
        Told
    }

    // The text, of which so many bytes have been read; answers how many bytes it spells.
    fn text(&mut self, have: usize, file: &mut [u8; FILE], raw: &mut [u8]) -> Result<u64, Told>
        requires { have ≤ 65600 }
    {
        let mut reached = Reached::start();
        let mut n = have;
        // as many turns as can ever be: what a file still has is no measure
        for _ in 0..u64::MAX {
            if n == 0 {
                break;
            }
            if let Err(at) = reached.gather(&file[..n], raw) {
                return Err(self.bad_digit(at));
            }
            n = self.fill(file)?;
        }
        if reached.digits % 2 != 0 {
            return Err(self.odd());
        }
        Ok(reached.digits / 2)
    }

    // Above 65,555 bytes the first 65,556 are answered as all are.
    fn datagram<'b>(&mut self, form: Option<Form>, raw: &'b mut [u8]) -> Result<Found<'b>, Told> {
        let mut file = [0u8; FILE];
        let have = self.fill(&mut file)?;
        let text = match form {
            None => is_text(&file[..have]),
            Some(Form::Hex) => true,
            Some(Form::Raw) => false,
        };
        let total = if text {
            self.text(have, &mut file, raw)?
        } else {
            keep(&file[..have], raw)
        };
        let size = raw.len().min(total as usize);
        Ok(Found {
            bytes: &raw[..size],
            total,
        })
    }
}

// The datagram of the file that a path names, `-` for standard input: its first bytes, as many as raw has room for. The library
// names files in UTF-8 alone.
pub fn datagram<'a>(
    rt: HostRuntime,
    path: &[u8],
    form: Option<Form>,
    raw: &'a mut [u8],
) -> Result<Found<'a>, Told> {
    if let b"-" = path {
        let mut source = Source {
            rt,
            reader: rt.stdin(),
            name: "standard input",
        };
        return source.datagram(form, raw);
    }
    let Ok(name) = std::str::from_utf8(path) else {
        let mut complaint = Complaint::new(rt);
        complaint.put(b"stun: ");
        complaint.put(path);
        complaint.put(b": the name is not UTF-8\n");
        return Err(Told);
    };
    let reader = File::open(&rt, name).map_err(|error| unread(rt, name, &error))?;
    let mut source = Source { rt, reader, name };
    source.datagram(form, raw)
}

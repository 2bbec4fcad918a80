// stun: the front door. Shows, lists, writes and checks STUN messages; every rule is the library's. Each command answers what the
// program is to end with, or that it has been told why it can't.
#![tactic(auto)]

use hex_text::HexFault;
use std::env::{Env, FillError};
use std::io::Error;
use std::process::ExitCode;
use stun_file::Form;
use stun_io::complaints::{Complaint, fail};
use stun_io::status::{Status, Told};
use stun_lines::answers::Job;

// As many bytes as a command or a flag has room for, as a file's name has, and an argument that is shown.
const WORD: usize = 16;

const NAME: usize = 4096;

// As many hex digits as a key has at most.
const DIGITS: usize = 65536;

// The system's numbers for an argument that is missing and for one that is too long.
const EINVAL: i32 = 22;

const ENAMETOOLONG: i32 = 36;

// An argument, whose bytes go to a buffer.
fn arg(rt: HostRuntime, i: usize, buf: &mut [u8]) -> Result<&[u8], FillError> {
    let n = rt.arg(i, buf)?;
    Ok(&buf[..n])
}

// The same, empty where it is missing or too long.
fn word(rt: HostRuntime, i: usize, buf: &mut [u8]) -> &[u8] {
    arg(rt, i, buf).unwrap_or_default()
}

// The same, where it has to be there and whole; else that is told.
fn whole<'a>(rt: HostRuntime, i: usize, buf: &'a mut [u8], what: &str) -> Result<&'a [u8], Told> {
    arg(rt, i, buf).map_err(|error| {
        let code = match error {
            FillError::NotPresent => EINVAL,
            FillError::TooLong => ENAMETOOLONG,
        };
        fail(rt, what, &Error::from_raw_os_error(code))
    })
}

fn is_given(rt: HostRuntime, i: usize) -> bool {
    !matches!(rt.arg(i, &mut []), Err(FillError::NotPresent))
}

fn is_last(rt: HostRuntime, i: usize) -> bool {
    is_given(rt, i) && !is_given(rt, i.saturating_add(1))
}

// Refuses the argument at a place.
fn refuse(rt: HostRuntime, i: usize) -> Told {
    let mut buf = [0u8; NAME];
    let mut complaint = Complaint::new(rt);
    complaint.put(b"stun: not understood: ");
    complaint.put(word(rt, i, &mut buf));
    complaint.put(b" (stun alone shows the commands)\n");
    Told
}

// No more words than so many are taken.
fn no_more(rt: HostRuntime, count: usize) -> Result<(), Told> {
    if is_given(rt, count) {
        return Err(refuse(rt, count));
    }
    Ok(())
}

// A key in hex; its bytes go to a buffer.
fn key_at(rt: HostRuntime, i: usize, key: &mut [u8]) -> Result<&[u8], Told> {
    let mut buf = [0u8; DIGITS];
    let mut complaint = Complaint::new(rt);
    match hex_text::unhex(whole(rt, i, &mut buf, "stun: the key")?, key) {
        Ok(size) => return Ok(key.get(..size).unwrap_or_default()),
        Err(HexFault::Bad(p)) => {
            let column = p.saturating_add(1);
            complaint.put(b"stun: the key");
            write!(complaint, ", column {column}: not a hex digit\n");
        }
        Err(HexFault::Odd) => complaint.put(b"stun: the key has an odd number of hex digits\n"),
    }
    Err(Told)
}

fn check_command(rt: HostRuntime) -> Result<Status, Told> {
    if !is_last(rt, 3) {
        Complaint::new(rt).put(
            b"stun: check takes a key in hex and a file (- for standard input)\n",
        );
        return Err(Told);
    }
    let mut key = [0u8; DIGITS];
    let key = key_at(rt, 2, &mut key)?;
    let mut path = [0u8; NAME];
    let path = whole(rt, 3, &mut path, "stun: the file's name")?;
    stun_read::check(rt, path, key)
}

fn read_at(rt: HostRuntime, i: usize, form: Option<Form>) -> Result<Status, Told> {
    let mut path = [0u8; NAME];
    let path = whole(rt, i, &mut path, "stun: the file's name")?;
    stun_read::read(rt, path, form)
}

fn form_at(rt: HostRuntime, i: usize) -> Option<Form> {
    match word(rt, i, &mut [0; WORD]) {
        b"--hex" => Some(Form::Hex),
        b"--raw" => Some(Form::Raw),
        _ => None,
    }
}

// The form stands before or behind the file.
fn read_command(rt: HostRuntime) -> Result<Status, Told> {
    if is_last(rt, 2) {
        return read_at(rt, 2, None);
    }
    if is_last(rt, 3) {
        for (flag, file) in [(3, 2), (2, 3)] {
            let form = form_at(rt, flag);
            if form.is_some() {
                return read_at(rt, file, form);
            }
        }
    }
    Complaint::new(rt).put(b"stun: read takes a file (- for standard input), and --hex or --raw\n");
    Err(Told)
}

fn lines_of(rt: HostRuntime, job: Job<'_>) -> Result<Status, Told> {
    no_more(rt, 3)?;
    Ok(stun_lines::run(rt, job))
}

fn keyed_lines(rt: HostRuntime) -> Result<Status, Told> {
    no_more(rt, 4)?;
    let mut key = [0u8; DIGITS];
    let key = key_at(rt, 3, &mut key)?;
    Ok(stun_lines::run(rt, Job::Keyed(key)))
}

fn lines_command(rt: HostRuntime) -> Result<Status, Told> {
    if !is_given(rt, 2) {
        return lines_of(rt, Job::Reading);
    }
    match word(rt, 2, &mut [0; WORD]) {
        b"--walk" => lines_of(rt, Job::Walk),
        b"--values" => lines_of(rt, Job::Values),
        b"--key" => keyed_lines(rt),
        _ => Err(refuse(rt, 2)),
    }
}

fn write_command(rt: HostRuntime) -> Result<Status, Told> {
    no_more(rt, 2)?;
    Ok(stun_write::run(rt))
}

// The launcher answers the help and the numbers.
fn main(rt: HostRuntime) -> ExitCode {
    let status = match word(rt, 1, &mut [0; WORD]) {
        b"read" => read_command(rt),
        b"lines" => lines_command(rt),
        b"write" => write_command(rt),
        b"check" => check_command(rt),
        _ => Err(refuse(rt, 1)),
    };
    ExitCode::from(status.unwrap_or(Status::Trouble))
}

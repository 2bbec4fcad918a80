// The fields of a script's line, and what they say: each method takes the next one, or tells what was wanted in its place.
ghost use Rattle.std.specs.Prelude.{◌≤◌, length, IfOk};

use crate::expected::Wanted;
use digits::number_of;
use registry::Rule;
use stun_io::words::is_blank;

// Blanks part them.
#[derive(Clone, Copy)]
pub struct Fields<'a> {
    rest: &'a [u8],
}

// How many bytes hex digits spell, `-` for none; they go to out, where there is room.
fn bytes_of(t: &[u8], out: &mut [u8]) -> Option<usize> {
    match t {
        b"" => None,
        b"-" => Some(0),
        _ => hex_text::unhex(t, out).ok(),
    }
}

// A number in 16 bits; a greater one is as far out of range as the greatest.
fn low(n: u64) -> u16 {
    u16::try_from(n).unwrap_or(u16::MAX)
}

fn rule_of(kind: u16) -> Rule {
    registry::entry_rule(registry::entry_of(kind))
}

impl<'a> Fields<'a> {
    pub fn of(line: &'a [u8]) -> Fields<'a> {
        Fields { rest: line }
    }

    // A field is never empty, so an empty one says that there is none.
    pub fn next(&mut self) -> &'a [u8] {
        let from = self.rest.iter().position(|b| !is_blank(*b));
        let s = &self.rest[from.unwrap_or(self.rest.len())..];
        let size = s.iter().position(|b| is_blank(*b));
        let (field, rest) = s.split_at(size.unwrap_or(s.len()));
        self.rest = rest;
        field
    }

    // No field is left.
    pub fn end(&mut self) -> Result<(), Wanted> {
        if self.next().is_empty() {
            Ok(())
        } else {
            Err(Wanted::End)
        }
    }

    pub fn number(&mut self, wanted: Wanted) -> Result<u64, Wanted> {
        number_of(self.next()).ok_or(wanted)
    }

    // A number in 16 bits, a greater one as the greatest.
    pub fn low(&mut self, wanted: Wanted) -> Result<u16, Wanted> {
        self.number(wanted).map(low)
    }

    // A number that has to be in 16 bits.
    pub fn short(&mut self, wanted: Wanted) -> Result<u16, Wanted> {
        let n = self.number(wanted)?;
        u16::try_from(n).map_err(|_| wanted)
    }

    pub fn class(&mut self) -> Result<u16, Wanted> {
        let n = self.short(Wanted::Class)?;
        if n > 3 {
            return Err(Wanted::Class);
        }
        Ok(n)
    }

    // As `text_type` below, with another rule and another wish: a function that takes both is no shorter.
    pub fn address_type(&mut self) -> Result<u16, Wanted> {
        let kind = self.short(Wanted::AddressType)?;
        match rule_of(kind) {
            Rule::Address | Rule::XorAddress => Ok(kind),
            _ => Err(Wanted::AddressType),
        }
    }

    pub fn text_type(&mut self) -> Result<u16, Wanted> {
        let kind = self.short(Wanted::TextType)?;
        match rule_of(kind) {
            Rule::Text => Ok(kind),
            _ => Err(Wanted::TextType),
        }
    }

    // The reserved bits of an error code, which need not be told.
    pub fn reserved(&mut self) -> Result<u32, Wanted> {
        let t = self.next();
        if t.is_empty() {
            return Ok(0);
        }
        let n = number_of(t).ok_or(Wanted::Reserved)?;
        Ok(u32::try_from(n).unwrap_or(u32::MAX))
    }

    // Bytes in hex, which may be more than there is room for.
    pub fn hex(&mut self, out: &mut [u8]) -> Result<usize, Wanted> {
        bytes_of(self.next(), out).ok_or(Wanted::Bytes)
    }

    // Bytes in hex that there is room for; answers how many they are.
    pub fn bytes(&mut self, out: &mut [u8], wanted: Wanted) -> Result<usize, Wanted>
        ensures { IfOk result (λ n. n ≤ length out.old) }
    {
        let room = out.len();
        match bytes_of(self.next(), out) {
            Some(n) if n <= room => Ok(n),
            _ => Err(wanted),
        }
    }

    // The same of types parted by commas, two bytes each; their place is counted, since it is answered.
    #[tactic(auto, unfolding(buffers::specs::Put::fits_at, big_endian::specs::Numbers::two))]
    pub fn types(&mut self, out: &mut [u8]) -> Result<usize, Wanted>
        ensures { IfOk result (λ n. n ≤ length out.old) }
    {
        let t = self.next();
        if let b"-" = t {
            return Ok(0);
        }
        let mut at = 0;
        for t in t.split(|b| *b == b',') {
            let Some(Ok(kind)) = number_of(t).map(u16::try_from) else {
                return Err(Wanted::Types);
            };
            if !buffers::put_u16(out, at, kind) {
                return Err(Wanted::Types);
            }
            at += 2;
        }
        Ok(at)
    }
}

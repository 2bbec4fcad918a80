// What a person is shown: the bytes that a number is about, and the zeros that an IPv6 address leaves out.
#![tactic(auto, using(std::proofs::lemmas::Bool::Decides::nat_tests), unfolding(crate::specs::Blame::within, crate::specs::Blame::in_attribute, crate::specs::Blame::blamed, crate::specs::Zeros::better_of))]

ghost use Rattle.std.specs.Prelude.{◌≡◌, ◌<◌, ◌==◌, length};
ghost use Rattle.std.specs.List.{take_while};
ghost use Rattle.display.specs.Blame.{within, in_attribute, blamed};
ghost use Rattle.display.specs.Zeros.{better_of, longest};

use big_endian::u16_at;

pub mod escape;

// So many places from one on.
#[derive(Clone, Copy, Debug, PartialEq, Eq)]
pub struct Span {
    pub at: usize,
    pub size: usize,
}

// As far as all the bytes reach.
fn part(all: usize, at: usize, size: usize) -> Span
    ensures { result ≡ within all at size }
{
    let at = at.min(all);
    Span {
        at,
        size: size.min(all - at),
    }
}

// The bytes of an attribute that a number is about: any number, as in `blame`.
fn in_attribute(d: &[u8], number: u8, place: usize) -> Span
    requires { place < length d.now }
    ensures { result ≡ in_attribute d.now number place }
{
    let all = d.len();
    match number {
        10 => part(all, place, 4),
        11 => part(all, place + 2, 2),
        12 => part(all, place + 5, 1),
        13 => part(all, place + 6, 2),
        14 => part(all, place + 4, u16_at(d, place + 2) as usize),
        _ => part(all, place + 4, 4),
    }
}

// The bytes that a number of the reader is about, as docs/NUMBERS.md counts them; the place is that of the attribute at fault.
// A number and no `Refusal`: the public clause answers for any.
pub fn blame(d: &[u8], number: u8, place: usize) -> Span
    ensures { result ≡ blamed d.now number place }
{
    let all = d.len();
    match number {
        1 => part(all, 0, all),
        2 => part(all, 0, 1),
        3 => part(all, 4, 4),
        4 => part(all, 2, 2),
        _ if all <= place => part(all, place, 0),
        _ => in_attribute(d, number, place),
    }
}

// How many zeros stand in front.
fn zeros(groups: &[u16]) -> usize
    ensures { result ≡ length (take_while (λ g. g == 0) groups.now) }
{
    groups.iter().take_while(|g| **g == 0).count()
}

fn better(best: Span, at: usize, size: usize) -> Span
    ensures { result ≡ better_of best at size }
{
    if best.size < size {
        Span { at, size }
    } else {
        best
    }
}

// The first of the longest runs of two or more zeros; of no places where there is none, as the public clause has it. A run may start at any
// place, so each is tried.
pub fn longest_zeros(groups: &[u16]) -> Span
    ensures { result ≡ longest groups.now }
{
    let mut best = Span { at: 0, size: 0 };
    for i in 0..groups.len() {
        let n = zeros(&groups[i..]);
        best = better(best, i, n);
    }
    if best.size < 2 {
        return Span { at: 0, size: 0 };
    }
    best
}

// CRC-32's registers: the definition and its laws are in specs/; here the product of two, which takes many steps at once.
#![tactic(auto)]

ghost use Rattle.std.specs.Prelude.{◌≡◌, ◌*◌, ◌/◌, ◌^◌};
ghost use Rattle.std.specs.Int.Bits.{bit_xor};
ghost use Rattle.crc.specs.Crc.{bit_step};
ghost use Rattle.crc.specs.Octets.{times};
ghost use Rattle.crc.specs.Taken.{Taken};

// `m`, added where the highest digit of `t` is set.
fn added(a: u32, t: u32, m: u32) -> u32
    ensures { result ≡ bit_xor a (t / 2 ^ 31 * m) }
{
    if t < 0x8000_0000 { a } else { a ^ m }
}

fn bit_step(m: u32) -> u32
    ensures { result ≡ bit_step m }
{
    (m % 2 * 0xEDB88320) ^ (m / 2)
}

// A product on its way: what was added so far, and the digits that are left.
#[derive(Clone, Copy)]
struct Factors {
    sum: u32,
    t: u32,
    m: u32,
}

fn digit(s: Factors) -> Factors
    ensures { Taken 1 s result }
{
    Factors {
        sum: added(s.sum, s.t, s.m),
        t: s.t % 0x8000_0000 * 2,
        m: bit_step(s.m),
    }
}

// Two and five are written out: most products need the first few digits alone, and a loop would ask at each whether one is left.
fn two_digits(s: Factors) -> Factors
    ensures { Taken 2 s result }
{
    digit(digit(s))
}

fn five_digits(s: Factors) -> Factors
    ensures { Taken 5 s result }
{
    two_digits(two_digits(digit(s)))
}

// The digits that are left, from the highest, as long as one is set.
fn digits(k: u32, s: Factors) -> u32
    ensures { result ≡ bit_xor s.sum (times k s.t s.m) }
{
    let mut s = s;
    for _ in 0..k {
        if s.t == 0 {
            return s.sum;
        }
        s = digit(s);
    }
    s.sum
}

// A product of registers: where `m` is what so many bytes that are nought make of 0x8000_0000, what they make of `t`.
pub fn product(t: u32, m: u32) -> u32
    ensures { result ≡ times 32 t m }
{
    // Two lengths that are multiples of eight mostly differ in the fifth digit alone, or in the first five, taken without a loop.
    if t == 0x0800_0000 {
        return bit_step(bit_step(bit_step(bit_step(m))));
    }
    digits(27, five_digits(Factors { sum: 0, t, m }))
}

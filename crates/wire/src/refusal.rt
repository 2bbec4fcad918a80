// Refusals, by the numbers of docs/NUMBERS.md.
ghost use Rattle.std.specs.Prelude.{◌≡◌};
ghost use Rattle.wire.specs.Refusal.{refused_by, number_of};

// A refusal by its number. The named ones are the library's own; a struct and no enum, since a caller of `write_raw::append_unless`
// refuses by any number of his own, which comes back.
#[derive(Clone, Copy, Debug, PartialEq, Eq)]
pub struct Refusal {
    pub number: u8,
}

impl Refusal {
    pub const SHORT: Refusal = Refusal { number: 1 };

    pub const TYPE: Refusal = Refusal { number: 2 };

    pub const COOKIE: Refusal = Refusal { number: 3 };

    pub const LENGTH: Refusal = Refusal { number: 4 };

    pub const CUT: Refusal = Refusal { number: 10 };

    pub const SIZE: Refusal = Refusal { number: 11 };

    pub const FAMILY: Refusal = Refusal { number: 12 };

    pub const CODE: Refusal = Refusal { number: 13 };

    pub const TEXT: Refusal = Refusal { number: 14 };

    pub const FINGERPRINT: Refusal = Refusal { number: 15 };

    pub const NO_MESSAGE: Refusal = Refusal { number: 21 };

    pub const METHOD: Refusal = Refusal { number: 22 };

    pub const VALUE: Refusal = Refusal { number: 23 };

    pub const PADDING: Refusal = Refusal { number: 24 };

    pub const FULL: Refusal = Refusal { number: 25 };

    pub const ROOM: Refusal = Refusal { number: 26 };

    pub const UNSIGNED: Refusal = Refusal { number: 31 };

    pub const INTEGRITY: Refusal = Refusal { number: 32 };
}

// The number of what judging comes to; 0 where nothing is refused.
pub fn number_of(judged: Result<(), Refusal>) -> u8
    ensures { result ≡ number_of judged }
{
    match judged {
        Ok(()) => 0,
        Err(refusal) => refusal.number,
    }
}

// Nothing refused by 0, else a refusal by the number.
pub fn refused_by(number: u8) -> Result<(), Refusal>
    ensures { result ≡ refused_by number }
{
    if number == 0 {
        return Ok(());
    }
    Err(Refusal { number })
}

// The attributes of a datagram, one after the other.
ghost use Rattle.std.specs.Iterator.{at_most};

use attribute::Walk;

// Where it stands, its type, its value and where that stands, and its padding.
#[derive(Clone, Copy)]
pub struct Attribute<'a> {
    pub at: usize,
    pub kind: u16,
    pub place: usize,
    pub value: &'a [u8],
    pub padding: &'a [u8],
}

// Those that the walk visits from a place on; `left` is the measure by which it ends.
#[derive(Clone, Copy)]
pub struct Attributes<'a> {
    d: &'a [u8],
    place: usize,
    left: usize,
}

impl<'a> Attributes<'a> {
    // Those behind the header; there are at most 16,383.
    pub fn of(d: &'a [u8]) -> Attributes<'a> {
        Attributes {
            d,
            place: 20,
            left: 16384,
        }
    }

    // What the walk finds where it is.
    pub fn here(&self) -> Walk {
        attribute::walk_at(self.d, self.place)
    }
}

impl<'a> Iterator for Attributes<'a> {
    type Item = Attribute<'a>;

    ghost remaining = { λ s. at_most s.left };

    fn next(&mut self) -> Option<Attribute<'a>> {
        self.left = self.left.checked_sub(1)?;
        let Walk::Attribute {
            at,
            kind,
            value: place,
            size,
            next,
        } = self.here()
        else {
            return None;
        };
        self.place = next;
        let (value, padding) = self.d.get(place..next)?.split_at_checked(size)?;
        Some(Attribute {
            at,
            kind,
            place,
            value,
            padding,
        })
    }
}

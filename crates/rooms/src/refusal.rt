// Why bytes or lent slices are not taken.
ghost use Rattle.std.specs.Prelude.{◌≡◌, Some};
ghost use Rattle.rooms.specs.Refused.{number_of, place_of, lent_place, refusal_text};
ghost use Rattle.rooms.specs.declared.refusal.Refusal.TheVariants.{Slice};

use std::fmt;

// The slices that are lent, in their order.
#[derive(Clone, Copy, PartialEq, Eq, Debug)]
pub enum Lent {
    Rooms,
    Rents,
    Work,
    Sheet,
}

#[derive(Clone, Copy, PartialEq, Eq, Debug)]
pub enum Refusal {
    // The bytes end too early, at their length, or go on, at the first too many.
    Length(usize),
    // Nobody, or more people than are taken.
    People,
    // A rent above the bound.
    Rent,
    // A worth above the bound, by its first byte.
    Worth(usize),
    // A lent slice that is too short, by its number: 0 to 3 for the four of `Lent`; a caller may name others.
    Slice(usize),
}

impl From<Lent> for Refusal {
    ghost from_gives = { λ which refusal. refusal ≡ Slice (lent_place which) };

    fn from(which: Lent) -> Self {
        Refusal::Slice(which as usize)
    }
}

impl Refusal {
    pub fn number(&self) -> u32
        ensures { result ≡ number_of self.now }
    {
        match *self {
            Refusal::Length(_) => 1,
            Refusal::People => 2,
            Refusal::Rent => 3,
            Refusal::Worth(_) => 4,
            Refusal::Slice(_) => 5,
        }
    }

    // The byte at which the fault stands, or which slice it is.
    pub fn place(&self) -> usize
        ensures { result ≡ place_of self.now }
    {
        match *self {
            Refusal::Length(at) => at,
            Refusal::People => 0,
            Refusal::Rent => 1,
            Refusal::Worth(at) => at,
            Refusal::Slice(which) => which,
        }
    }
}

impl fmt::Display for Refusal {
    ghost output = { λ e. Some (refusal_text (number_of e) (place_of e)) };

    fn fmt<W: fmt::Write>(&self, f: &mut fmt::Formatter<W>) -> fmt::Result {
        let number = self.number();
        let place = self.place();
        write!(f, "refused {number} at {place}")
    }
}

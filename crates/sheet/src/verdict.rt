// What the checker answers.
ghost use Rattle.std.specs.Prelude.{◌≡◌, Some};
ghost use Rattle.sheet.specs.Judge.{place};
ghost use Rattle.sheet.specs.Texts.{fault_in, judgement_text};
ghost use Rattle.sheet.specs.Verdicts.{meaning};

use rooms::Refusal;
use std::fmt;

// An enum, and no Result, as a rule of the project: to accept is a verdict like the others.
#[derive(Clone, Copy, PartialEq, Eq, Debug)]
pub enum Verdict {
    Accepted,
    // The group's own refusal.
    Group(Refusal),
    // A sheet of another length.
    Length(usize),
    // The first person with no room, or with an earlier person's.
    Rooms(usize),
    // The numbers for the joint worth, at a person and a room.
    Numbers(usize, usize),
    // A length of a row or a person before, or the lowest person on a circle of persons before.
    Rows(usize),
    // A way, from a person to another, that leads to more.
    Way(usize, usize),
    // The rent of a room, or its cents.
    Rent(usize),
    Cents(usize),
}

// A place of two parts. It is wide, so that any two have one.
fn two_parts(a: usize, b: usize) -> u128
    ensures { result ≡ place a b }
{
    a as u128 * 32 + b as u128
}

impl Verdict {
    // The number and the place of the fault; none where the sheet is accepted.
    pub fn fault(&self) -> Option<(u32, u128)>
        ensures { result ≡ fault_in (meaning self.now) }
    {
        match *self {
            Verdict::Accepted => None,
            Verdict::Group(refusal) => Some((refusal.number(), refusal.place() as u128)),
            Verdict::Length(at) => Some((6, at as u128)),
            Verdict::Rooms(person) => Some((7, person as u128)),
            Verdict::Numbers(person, room) => Some((8, two_parts(person, room))),
            Verdict::Rows(person) => Some((9, person as u128)),
            Verdict::Way(from, to) => Some((10, two_parts(from, to))),
            Verdict::Rent(room) => Some((11, room as u128)),
            Verdict::Cents(room) => Some((11, room as u128 + 32)),
        }
    }
}

impl fmt::Display for Verdict {
    ghost output = { λ v. Some (judgement_text (meaning v)) };

    fn fmt<W: fmt::Write>(&self, f: &mut fmt::Formatter<W>) -> fmt::Result {
        match self.fault() {
            None => write!(f, "accepted"),
            Some((number, place)) => write!(f, "refused {number} at {place}"),
        }
    }
}

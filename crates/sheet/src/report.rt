// The lines that are printed of a share; each says by `output` which bytes it is.
ghost use Rattle.std.specs.Prelude.{◌≡◌, Some};
ghost use Rattle.sheet.specs.Report.{joint_text, person_text, least_text, line_of};

use rooms::group::MOST_PEOPLE;
use std::fmt;
use whole::Word;

// The joint worth.
#[derive(Clone, Copy)]
pub struct JointLine(pub i64);

// A person, their room, and what they pay in cents.
#[derive(Clone, Copy)]
pub struct PersonLine {
    pub person: usize,
    pub room: u32,
    pub pays: i64,
}

// n times what the one who has least gains, and n.
#[derive(Clone, Copy)]
pub struct LeastLine {
    pub least: i64,
    pub people: usize,
}

impl fmt::Display for JointLine {
    ghost output = { λ x. Some (joint_text x.0) };

    fn fmt<W: fmt::Write>(&self, f: &mut fmt::Formatter<W>) -> fmt::Result {
        write!(f, "joint {}", self.0)
    }
}

impl fmt::Display for PersonLine {
    ghost output = { λ x. Some (person_text x.person x.room x.pays) };

    fn fmt<W: fmt::Write>(&self, f: &mut fmt::Formatter<W>) -> fmt::Result {
        let PersonLine { person, room, pays } = *self;
        write!(f, "person {person} room {room} pays {pays}")
    }
}

impl fmt::Display for LeastLine {
    ghost output = { λ x. Some (least_text x.least x.people) };

    fn fmt<W: fmt::Write>(&self, f: &mut fmt::Formatter<W>) -> fmt::Result {
        let LeastLine { least, people } = *self;
        write!(f, "least {least} of {people}")
    }
}

// The line of person i of n, from what `share` has left in rooms and rents; none where these are too short for it.
pub fn person_line(rooms: &[u32], rents: &[u64], n: usize, i: usize) -> Option<PersonLine>
    ensures { result ≡ line_of rooms.now rents.now n i }
{
    if n > MOST_PEOPLE {
        return None;
    }
    let room = *rooms.get(i)?;
    let pays = *rents.get(n + room as usize)?;
    Some(PersonLine {
        person: i,
        room,
        pays: i64::from_bits(pays),
    })
}

// A sharing of the rooms with a number for each person, and what rents and gains are made of them, n times, in exact numbers.
ghost use Rattle.std.specs.Prelude.{◌≡◌, ℕ, ◌<◌, ◌≤◌, ◌++◌, length, drop, slice_index};
ghost use Rattle.rooms.specs.House.{Housed, joint as joint_of, own_gain, sum as total};
ghost use Rattle.rooms.specs.Format.{most_people, most_worth};
ghost use Rattle.rooms.specs.Rows.{number, signed};
ghost use Rattle.rooms.specs.View.{house};
ghost use Rattle.rents.specs.Rents.{due as due_of, rents_of, spare as spare_of};
ghost use Rattle.rents.specs.Answer.{bits, gains_of};

use rooms::Group;
use rooms::group::MOST_PEOPLE;
use whole::{Whole, Word};

// A sharing of a group's rooms with the lengths of its longest rows; the joint worth, and what is spare.
// No heap in the libraries, so an array of the most people.
#[derive(Clone, Copy)]
pub(crate) struct Sharing<'g, 'r> {
    group: Group<'g>,
    rooms: &'r [u32],
    d: [u64; MOST_PEOPLE],
    pub(crate) joint: i64,
    pub(crate) spare: i64,
    ghost housed: { Housed (house group) rooms.now },
    ghost low: { (i : ℕ) → slice_index d i ≤ most_worth },
    ghost worth: { joint ≡ joint_of (house group) rooms.now },
    ghost left: { spare ≡ spare_of (house group) rooms.now (signed d) },
}

impl<'g, 'r> Sharing<'g, 'r> {
    // The sharing of these rooms, with what is made of it once for all.
    pub(crate) fn new(group: &Group<'g>, rooms: &'r [u32], d: [u64; MOST_PEOPLE]) -> Sharing<'g, 'r>
        requires housed { Housed (house group.now) rooms.now }
        requires low { (i : ℕ) → slice_index d i ≤ most_worth }
        ensures group { result.group.bytes.now ≡ group.now.bytes.now }
        ensures rooms { result.rooms.now ≡ rooms.now }
        ensures lengths { result.d ≡ d }
    {
        let joint = joint_worth(group, rooms);
        let lengths = all_lengths(&d[..group.count()]);
        let spare = joint.minus(i64::from(group.rent())).minus(lengths);
        Sharing {
            group: *group,
            rooms,
            d,
            joint,
            spare,
        }
    }

    // What person i pays: the worth of their room less the length of their longest row, less an even part of what is spare.
    fn due(&self, i: usize) -> i64
        requires { i < (house self.now.group).n }
        ensures { result ≡ due_of (house self.now.group) self.now.rooms.now (signed self.now.d) i }
    {
        let worth = self.group.worth(i, self.rooms[i] as usize);
        i64::from(worth)
            .minus(self.d[i] as i64)
            .times(self.group.count() as u32)
            .minus(self.spare)
    }

    // What person i gains: the length of their longest row, and an even part of what is spare.
    fn gain(&self, i: usize) -> i64
        requires { i < (house self.now.group).n }
        ensures { result ≡ own_gain (house self.now.group) self.now.rooms.now (house self.now.group).n (rents_of (house self.now.group) self.now.rooms.now (signed self.now.d)) i }
    {
        (self.d[i] as i64)
            .times(self.group.count() as u32)
            .plus(self.spare)
    }

    // What each person pays, written at their room.
    pub(crate) fn write_rents(&self, rents: &mut [u64])
        requires { (house self.now.group).n ≤ length rents.old }
        ensures { rents.new ≡ bits (rents_of (house self.now.group) self.now.rooms.now (signed self.now.d)) ++ drop (house self.now.group).n rents.old }
    {
        for (i, room) in self.rooms[..self.group.count()].iter().enumerate() {
            rents[*room as usize] = self.due(i).to_bits();
        }
    }

    // What each person gains.
    pub(crate) fn gains(&self) -> [i64; MOST_PEOPLE]
        ensures { result ≡ gains_of (house self.now.group) self.now.rooms.now (signed self.now.d) }
    {
        let mut gains = [0; MOST_PEOPLE];
        for (i, gain) in gains[..self.group.count()].iter_mut().enumerate() {
            *gain = self.gain(i);
        }
        gains
    }
}

// What everybody's own room is worth to them, together. A loop, since the library's sum of signed numbers asks for a bound that it has no way to learn.
fn joint_worth(group: &Group, rooms: &[u32]) -> i64
    requires { Housed (house group.now) rooms.now }
    ensures { result ≡ joint_of (house group.now) rooms.now }
{
    let mut worths = 0i64;
    for (i, room) in rooms[..group.count()].iter().enumerate() {
        worths = worths.plus(i64::from(group.worth(i, *room as usize)));
    }
    worths
}

// The lengths of all longest rows, together: a loop for the same reason.
fn all_lengths(d: &[u64]) -> i64
    requires { (length d.now ≤ most_people) × ((i : ℕ) → slice_index d.now i ≤ most_worth) }
    ensures { result ≡ total (λ i. number (signed d.now) i) (length d.now) }
{
    let mut lengths = 0i64;
    for row in d {
        lengths = lengths.plus(*row as i64);
    }
    lengths
}

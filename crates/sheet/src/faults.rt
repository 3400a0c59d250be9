// The tests of a sheet's rooms and of its numbers for the joint worth: each finds the first place that is at fault.
ghost use Rattle.std.specs.Prelude.{◌≡◌, ◌<◌, ◌&&◌, ◌||◌, pos, ◌+ℤ◌, int_lt};
ghost use Rattle.rooms.specs.First.{found};
ghost use Rattle.rents.specs.Faults.{room_fault, number_fault};
ghost use Rattle.sheet.specs.Pairs.{found_pair};
ghost use Rattle.sheet.specs.Statement.{claimed_by, house_in};

use super::pairs::first_pair;
use super::statement::Statement;
use rooms::group::MOST_PEOPLE;
use whole::wide_sum;

// Whether the numbers of a person and a room are below the worth together, or above it where the room is the person's own:
// `own` is a part of the test, and picks no step.
fn sum_off(person: i64, room: i64, worth: u32, own: bool) -> bool
    ensures { result ≡ (int_lt (person +ℤ room) (pos worth) || (own && int_lt (pos worth) (person +ℤ room))) }
{
    let sum = wide_sum(person, room);
    let worth = i128::from(worth);
    sum < worth || (own && worth < sum)
}

impl Statement<'_> {
    // The first person who has no room, or an earlier person's. A loop, since the test keeps which rooms are taken.
    pub fn first_room(&self) -> Option<usize>
        ensures { result ≡ found (room_fault (house_in self.now) (claimed_by self.now)) (house_in self.now).n }
    {
        let n = self.group.count();
        let entries = self.entries;
        let mut taken = [false; MOST_PEOPLE];
        for (i, room) in entries.room[..n].iter().enumerate() {
            let room = usize::from(*room);
            if room >= n || taken[room] {
                return Some(i);
            }
            taken[room] = true;
        }
        None
    }

    // Whether the numbers of person i and room r are at fault.
    fn number_off(&self, i: usize, r: usize) -> bool
        requires { (i < (house_in self.now).n) × (r < (house_in self.now).n) }
        ensures { result ≡ number_fault (house_in self.now) (claimed_by self.now) i r }
    {
        let entries = self.entries;
        let own = usize::from(entries.room[i]) == r;
        sum_off(
            entries.persons[i],
            entries.rooms[r],
            self.group.worth(i, r),
            own,
        )
    }

    // The first person with a room at which their numbers are at fault, and the room.
    pub fn first_numbers(&self) -> Option<(usize, usize)>
        ensures { result ≡ found_pair (number_fault (house_in self.now) (claimed_by self.now)) (house_in self.now).n }
    {
        first_pair(self.group.count(), |i, r| self.number_off(i, r))
    }
}

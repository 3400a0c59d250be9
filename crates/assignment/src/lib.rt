// The best sharing of a house's rooms: who gets which, so that what the rooms are worth to all together is highest; with a number for each person and
// each room that show it. By the Hungarian method: a round for each person, shortest ways to a free room, the numbers moved once a round.
#![tactic(auto)]

ghost use Rattle.std.specs.Prelude.{◌≡◌, ℕ, ◌+◌, ◌*◌, ◌^◌, ◌<◌, ◌≤◌, ◌++◌, length, drop, replicate};
ghost use Rattle.rooms.specs.Format.{most_people, most_worth};
ghost use Rattle.rooms.specs.View.{house};
ghost use Rattle.assignment.specs.Search.{at};
ghost use Rattle.assignment.specs.Answer.{sharing_of, persons_of, prices_of, round_looks, looks_of, array_of, work_for};
ghost use Rattle.assignment.specs.Promise.{Solved, Few, AllAnswered, Found};

use rooms::Group;
use rooms::group::MOST_PEOPLE;

mod rounds;
mod search;
mod slices;
#[cfg(test)]
mod tests;

use rounds::place_all;
use slices::{Rooms, Standing, Tree};

// What shows that a sharing is best: a number for each person and each room, 0 past the n of them; and how many looks were taken.
// No heap in the libraries, so arrays of the most people.
#[derive(Clone, Copy)]
pub struct Assignment {
    pub looks: u64,
    pub persons: [u64; MOST_PEOPLE],
    pub rooms: [u64; MOST_PEOPLE],
}

// How many numbers of work a group of n takes: a row for each person, and seven lists.
pub fn work_len(n: usize) -> usize
    requires { n ≤ most_people }
    ensures { result ≡ work_for n }
{
    n * n + 7 * n
}

// The best sharing of a group's house: the first n of rooms say who gets which. All else is done on the first work_len(n) of work, which are 0 after.
pub fn assign(group: &Group, rooms: &mut [u32], work: &mut [u64]) -> Assignment
    requires { ((house group.now).n ≤ length rooms.old) × (work_for (house group.now).n ≤ length work.old) }
    ensures sharing { rooms.new ≡ sharing_of (house group.now) ++ drop (house group.now).n rooms.old }
    ensures persons { result.persons ≡ array_of (persons_of (house group.now)) }
    ensures prices { result.rooms ≡ array_of (prices_of (house group.now)) }
    ensures count { result.looks ≡ looks_of (house group.now) }
    ensures clean { work.new ≡ replicate (work_for (house group.now).n) 0 ++ drop (work_for (house group.now).n) work.old }
    ensures solved { Solved (house group.now) most_worth rooms.new result.persons result.rooms }
    ensures few { Few (house group.now).n (round_looks (house group.now)) result.looks }
{
    let n = group.count();
    let wanted = work_len(n);
    let found = solve(group, &mut rooms[0..n], &mut work[0..wanted]);
    work[0..wanted].fill(0);
    found
}

// The answer on slices of just the lengths wanted; work is cut into a row for each person and seven lists.
fn solve(group: &Group, rooms: &mut [u32], work: &mut [u64]) -> Assignment
    requires { (length rooms.old ≡ (house group.now).n) × (length work.old ≡ work_for (house group.now).n) }
    ensures sharing { rooms.new ≡ sharing_of (house group.now) }
    ensures persons { result.persons ≡ array_of (persons_of (house group.now)) }
    ensures prices { result.rooms ≡ array_of (prices_of (house group.now)) }
    ensures count { result.looks ≡ looks_of (house group.now) }
{
    let n = group.count();
    let (rows, rest) = work.split_at_mut(n * n);
    let (persons, rest) = rest.split_at_mut(n);
    let (prices, rest) = rest.split_at_mut(n);
    let (room, rest) = rest.split_at_mut(n);
    let (holder, rest) = rest.split_at_mut(n);
    let (distance, rest) = rest.split_at_mut(n);
    let (parent, turn) = rest.split_at_mut(n);
    let mut standing = Standing {
        persons,
        prices,
        rooms: Rooms { room, holder },
    };
    let mut tree = Tree {
        n,
        rows,
        distance,
        parent,
        turn,
    };
    let looks = place_all(group, &mut standing, &mut tree);
    let Standing {
        persons,
        prices,
        rooms: Rooms { room, .. },
    } = standing;
    write_rooms(room, rooms);
    Assignment {
        looks,
        persons: array(persons),
        rooms: array(prices),
    }
}

// The room of each person, written out.
fn write_rooms(room: &[u64], rooms: &mut [u32])
    requires { (length rooms.old ≡ length room.now) × ((i : ℕ) → i < length room.now → at room.now i < 2 ^ 32) }
    ensures { rooms.new ≡ room.now }
{
    for (i, written) in rooms.iter_mut().enumerate() {
        *written = room[i] as u32;
    }
}

// A list of numbers as an array, 0 past its end.
fn array(xs: &[u64]) -> [u64; MOST_PEOPLE]
    requires { length xs.now ≤ most_people }
    ensures { result ≡ array_of xs.now }
{
    let mut all = [0; MOST_PEOPLE];
    all[0..xs.len()].copy_from_slice(xs);
    all
}

// Every house is answered as promised; and so is the search for every number of people and every bound on the worths.
pub fn found_stands()
    ensures answered { AllAnswered }
    ensures found { Found }
{}

// The rounds: in round p person p is placed, the numbers are moved, and rooms are handed on. Where one list is written by what stands in another, the
// other is indexed: after a zip of a slice that is written a proof knows none of its elements.
ghost use Rattle.std.specs.Prelude.{◌≡◌, ℕ, ◌+◌, ◌-◌, ◌*◌, ◌<◌, ◌≤◌, length};
ghost use Rattle.std.specs.List.{range_with_len};
ghost use Rattle.rooms.specs.House.{worth_at};
ghost use Rattle.rooms.specs.Format.{most_worth};
ghost use Rattle.rooms.specs.View.{house};
ghost use Rattle.assignment.specs.Search.{at};
ghost use Rattle.assignment.specs.Run.{held, raised, lowered, swapped, handed, round_of, looks_in, beginning, after, looks_to};
ghost use Rattle.assignment.specs.Slices.{rooms_of, Holding, state_of};
ghost use Rattle.assignment.specs.Between.{Stands};

use super::search::grow;
use super::slices::{Rooms, Standing, Tree};
use rooms::Group;
use rooms::group::MOST_WORTH;

impl Rooms<'_> {
    // Everybody holds the room of their own number.
    fn begin(&mut self)
        ensures { rooms_of self.new ≡ held (range_with_len 0 (length self.old.room.now)) (range_with_len 0 (length self.old.room.now)) }
    {
        count_up(self.room);
        count_up(self.holder);
    }

    // Persons a and b exchange rooms.
    fn exchange(&mut self, a: usize, b: usize)
        requires { Holding (length self.old.room.now) self.old × (a < length self.old.room.now) × (b < length self.old.room.now) }
        ensures { rooms_of self.new ≡ swapped self.old.room.now self.old.holder.now a b }
    {
        let x = self.room[a] as usize;
        let y = self.room[b] as usize;
        self.room.swap(a, b);
        self.holder.swap(x, y);
    }

    // Rooms are handed on along the tree: p exchanges rooms with the parent of p's room, until that is p.
    fn hand_on(&mut self, p: usize, parent: &[u64])
        requires holds { Holding (length parent.now) self.old × (p < length parent.now) }
        requires parents { (r : ℕ) → r < length parent.now → at parent.now r < length parent.now }
        ensures rooms { rooms_of self.new ≡ handed p parent.now (length parent.now) (rooms_of self.old) }
        ensures long { length self.new.room.now ≡ length parent.now }
    {
        for _t in 0..parent.len() {
            let i = parent[self.room[p] as usize] as usize;
            if i == p {
                return;
            }
            self.exchange(p, i);
        }
    }
}

// The numbers of rooms nearer than d rise by what they are nearer.
fn raise(d: u64, distance: &[u64], prices: &mut [u64])
    requires { (length distance.now ≡ length prices.old) × (d ≤ most_worth) × ((r : ℕ) → r < length prices.old → at prices.old r ≤ most_worth) }
    ensures { prices.new ≡ raised (length prices.old) d distance.now prices.old }
{
    for (r, price) in prices.iter_mut().enumerate() {
        *price += d.saturating_sub(distance[r]);
    }
}

// The numbers of placed persons fall as their rooms rise, and p's falls by d. Distances are the tree's, rooms and persons are of what stands.
fn lower(p: usize, d: u64, distance: &[u64], rooms: &Rooms, persons: &mut [u64])
    requires sizes { (length distance.now ≡ length persons.old) × (length rooms.now.room.now ≡ length persons.old) × (p < length persons.old) }
    requires rooms { (i : ℕ) → i < length persons.old → at rooms.now.room.now i < length persons.old }
    requires fits { ((i : ℕ) → i < p → d ≤ at distance.now (at rooms.now.room.now i) + at persons.old i) × (d ≤ at persons.old p) }
    ensures { persons.new ≡ lowered (length persons.old) p d distance.now rooms.now.room.now persons.old }
{
    let (placed, rest) = persons.split_at_mut(p);
    for (i, number) in placed.iter_mut().enumerate() {
        *number -= d.saturating_sub(distance[rooms.room[i] as usize]);
    }
    rest[0] -= d;
}

// A round: person p is placed. The count of looks.
fn round(group: &Group, p: usize, standing: &mut Standing, tree: &mut Tree) -> u64
    requires person { p < (house group.now).n }
    requires stands { Stands (house group.now).n most_worth (worth_at (house group.now)) p (state_of standing.old) }
    requires people { tree.old.n ≡ (house group.now).n }
    ensures model { state_of standing.new ≡ round_of (worth_at (house group.now)) (house group.now).n p (state_of standing.old) }
    ensures count { result ≡ looks_in (worth_at (house group.now)) (house group.now).n p (state_of standing.old) }
    ensures people { tree.new.n ≡ (house group.now).n }
{
    let last = grow(group, p, standing, tree);
    let distance = &*tree.distance;
    let d = distance[last];
    raise(d, distance, standing.prices);
    lower(p, d, distance, &standing.rooms, standing.persons);
    let q = standing.rooms.holder[last] as usize;
    standing.rooms.exchange(p, q);
    let parent = &*tree.parent;
    standing.rooms.hand_on(p, parent);
    tree.turn[last] * group.count() as u64
}

// Each place is given its own number.
fn count_up(places: &mut [u64])
    ensures { places.new ≡ range_with_len 0 (length places.old) }
{
    for (i, place) in places.iter_mut().enumerate() {
        *place = i as u64;
    }
}

// Before the first round: everybody's number is the highest worth, every room's is 0, and everybody holds the room of their own number.
fn begin(standing: &mut Standing)
    ensures { state_of standing.new ≡ beginning (length standing.old.persons.now) most_worth }
{
    standing.persons.fill(u64::from(MOST_WORTH));
    standing.prices.fill(0);
    standing.rooms.begin();
}

// All rounds. The count of looks.
pub fn place_all(group: &Group, standing: &mut Standing, tree: &mut Tree) -> u64
    requires lists { length standing.old.persons.now ≡ (house group.now).n }
    requires people { tree.old.n ≡ (house group.now).n }
    ensures model { state_of standing.new ≡ after (worth_at (house group.now)) (house group.now).n most_worth (house group.now).n }
    ensures count { result ≡ looks_to (worth_at (house group.now)) (house group.now).n most_worth (house group.now).n }
    ensures stands { Stands (house group.now).n most_worth (worth_at (house group.now)) (house group.now).n (state_of standing.new) }
{
    begin(standing);
    let mut looks = 0;
    for p in 0..group.count() {
        looks += round(group, p, standing, tree);
    }
    looks
}

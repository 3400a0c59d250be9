// The slices of the work: what stands between two rounds, and the tree of a round. Each says how long its slices are.
// They are apart from their methods, whose contracts cite specs that read them. Lists stand beside one another, and a room that is not reached has
// turn 0, since the work that is lent is one slice of numbers.
ghost use Rattle.std.specs.Prelude.{◌≡◌, ◌*◌, length};

// Who holds which room, and who holds each; the numbers are u64 as all of the work. Persons who are not placed yet hold rooms too.
#[derive(Drop)]
pub struct Rooms<'a> {
    pub room: &'a mut [u64],
    pub holder: &'a mut [u64],
    ghost listed: { length holder.now ≡ length room.now },
}

// What stands between two rounds: a number for each person and each room, and who holds which.
#[derive(Drop)]
pub struct Standing<'a> {
    pub persons: &'a mut [u64],
    pub prices: &'a mut [u64],
    pub rooms: Rooms<'a>,
    ghost priced: { length prices.now ≡ length persons.now },
    ghost listed: { length rooms.room.now ≡ length persons.now },
}

// A row of offers for each person of n who joined; and for each room its distance, its parent, and the turn at which it was reached, which is 0 where
// it is not. A room's turn counts who had joined by then, and rooms are handed on to ever earlier turns.
#[derive(Drop)]
pub struct Tree<'a> {
    pub n: usize,
    pub rows: &'a mut [u64],
    pub distance: &'a mut [u64],
    pub parent: &'a mut [u64],
    pub turn: &'a mut [u64],
    ghost long_rows: { length rows.now ≡ n * n },
    ghost long_distance: { length distance.now ≡ n },
    ghost long_parent: { length parent.now ≡ n },
    ghost long_turn: { length turn.now ≡ n },
}

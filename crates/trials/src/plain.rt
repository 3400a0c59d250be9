// The same answers in a plain way: all sharings, one after the other, and rounds over all pairs of people.
ghost use Rattle.std.specs.Prelude.{◌<◌};

use super::house::{FEW, House};

// The highest joint worth of people by their rows, each in a room of their own of those that are free; none where that can't be.
fn best_of(rows: &[Vec<u32>], free: [bool; FEW]) -> Option<i64> {
    let Some((row, rest)) = rows.split_first() else {
        return Some(0);
    };
    let mut best = None;
    for (r, worth) in row.iter().enumerate() {
        if let Some(true) = free.get(r) {
            let mut others = free;
            others[r] = false;
            let joint = best_of(rest, others).map(|sum| sum.saturating_add(i64::from(*worth)));
            best = best.max(joint);
        }
    }
    best
}

// The highest joint worth of all sharings.
pub(super) fn best_worth(house: &House) -> Option<i64> {
    best_of(house.worth.as_slice(), [true; FEW])
}

// What a room is worth to a person, by their row; nothing where there is no such room.
fn worth(row: &[u32], room: u32) -> i64 {
    row.get(room as usize).copied().map_or(0, i64::from)
}

// n × what a person gains by a room, by their row.
fn gain(house: &House, row: &[u32], rents: &[u64], room: u32) -> i64 {
    let rent = rents
        .get(room as usize)
        .map_or(0, |bits| bits.cast_signed());
    worth(row, room)
        .saturating_mul(i64::from(house.people()))
        .saturating_sub(rent)
}

// The sum of signed numbers, by their bits.
pub(super) fn signed_sum(numbers: &[u64]) -> i64 {
    numbers
        .iter()
        .fold(0i64, |sum, bits| sum.saturating_add(bits.cast_signed()))
}

// Whether the rents, n × that of each room, add up and nobody would gain more by another room.
pub(super) fn is_settled(house: &House, rooms: &[u32], rents: &[u64]) -> bool {
    let n = house.people();
    let content = house.worth.iter().zip(rooms).all(|(row, mine)| {
        (0..u32::from(n)).all(|r| gain(house, row, rents, r) <= gain(house, row, rents, *mine))
    });
    content && signed_sum(rents) == i64::from(house.rent).saturating_mul(i64::from(n))
}

// The longest row of ways to a person, by their row: one way more than in those that were found to everybody so far.
fn longest_to(house: &House, rooms: &[u32], so_far: &[i64], row: &[u32]) -> i64 {
    house
        .worth
        .iter()
        .zip(rooms)
        .zip(so_far)
        .map(|((own, room), length)| {
            let way = worth(row, *room).saturating_sub(worth(own, *room));
            length.saturating_add(way)
        })
        .max()
        .unwrap_or(0)
}

// n × the least gain by the longest rows of ways: rounds over all pairs, as many as there are people.
pub(super) fn least_gain(house: &House, rooms: &[u32], joint: i64) -> i64 {
    let mut lengths = [0i64; FEW];
    for _ in rooms {
        let so_far = lengths;
        for (row, length) in house.worth.iter().zip(&mut lengths) {
            *length = longest_to(house, rooms, &so_far, row);
        }
    }
    lengths.iter().fold(
        joint.saturating_sub(i64::from(house.rent)),
        |left, length| { left.saturating_sub(*length) },
    )
}

// The public call that shares a house: on lent slices, all or nothing.
ghost use Rattle.std.specs.Prelude.{◌≡◌, ◌-◌, ◌*◌, ◌≤◌, ◌++◌, length, drop, replicate, IfOk, MatchResult};
ghost use Rattle.rooms.specs.Before.{nobody};
ghost use Rattle.rooms.specs.Format.{most_people, Allowed, house_of, taken, refused};
ghost use Rattle.rooms.specs.House.{joint as joint_of};
ghost use Rattle.rooms.specs.Refused.{number_of, place_of};
ghost use Rattle.rooms.specs.Rows.{signed};
ghost use Rattle.rooms.specs.View.{house};
ghost use Rattle.assignment.specs.Answer.{sharing_of, persons_of, prices_of, array_of, looks_of, work_for};
ghost use Rattle.rents.specs.Answer.{Measured, bits};
ghost use Rattle.rents.specs.Rents.{spare};
ghost use Rattle.sheet.specs.Format.{sheet_bytes, sheet_length};
ghost use Rattle.sheet.specs.Share.{lengths_of, priors_of, fair_rents, fair_cents, sheet_for, lent_enough, Shares, Refuses, AlwaysFair, AlwaysLeast, LeastGain};

use super::write::{Draft, sheet_len, write_sheet};
use assignment::{Assignment, assign, work_len};
use cents::write_cents;
use longest::{LongestRows, longest_rows};
use rents::{Outcome, fairest_rents};
use rooms::group::MOST_PEOPLE;
use rooms::{Group, Lent, Refusal};

// How long the slices have to be for the largest group; the rooms are as many as the most people.
pub const MOST_RENTS: usize = 2 * MOST_PEOPLE;

pub const MOST_WORK: usize = MOST_PEOPLE * MOST_PEOPLE + 7 * MOST_PEOPLE;

pub const MOST_SHEET: usize = 42 * MOST_PEOPLE;

// What is answered of a share: how many people, the joint worth, n × what the one who has least gains, and the looks that were taken.
#[derive(Clone, Copy)]
pub struct Shared {
    pub people: usize,
    pub joint: i64,
    pub least: i64,
    pub looks: u64,
}

// Shares a house. In `rooms` everybody's room; in `rents` n × the rent of each room and then its cents, as the bits of signed numbers; in `sheet` the
// sheet that shows it. `work` is all zero again. What lies past the parts used is kept; a refusal changes nothing.
// The slices are lent one by one, as callers have them.
pub fn share(
    group: &[u8],
    rooms: &mut [u32],
    rents: &mut [u64],
    work: &mut [u64],
    sheet: &mut [u8],
) -> Result<Shared, Refusal>
    ensures whole { MatchResult result
        (λ s. Shares group.now rooms.old rents.old work.old sheet.old
        rooms.new rents.new work.new sheet.new s.people s.joint s.least s.looks)
        (λ e. Refuses group.now rooms.old rents.old work.old sheet.old
        rooms.new rents.new work.new sheet.new (number_of e) (place_of e)) }
    ensures least { IfOk result (λ s. LeastGain (house_of group.now) s.least) }
{
    let group = Group::try_from(group)?;
    admit(&group, rooms.len(), rents.len(), work.len(), sheet.len())?;
    Ok(solve(&group, rooms, rents, work, sheet))
}

// The share of every house within the bounds is fair, and its sheet is accepted; and its least gain is what whoever has least gains.
pub fn share_stands()
    ensures fair { AlwaysFair }
    ensures least { AlwaysLeast }
{}

// Whether slices of these lengths are enough for a group, or which is too short. Four lengths, since how long the lent slices are is all that it asks.
fn admit(
    group: &Group,
    rooms: usize,
    rents: usize,
    work: usize,
    sheet: usize,
) -> Result<(), Refusal>
    ensures { MatchResult result (λ _. lent_enough rooms rents work sheet (taken (house group.now)) ≡ taken (house group.now))
        (λ e. lent_enough rooms rents work sheet (taken (house group.now)) ≡ refused (number_of e, place_of e)) }
{
    let n = group.count();
    if rooms < n {
        return Err(Refusal::from(Lent::Rooms));
    }
    if rents < 2 * n {
        return Err(Refusal::from(Lent::Rents));
    }
    if work < work_len(n) {
        return Err(Refusal::from(Lent::Work));
    }
    if sheet < sheet_len(n) {
        return Err(Refusal::from(Lent::Sheet));
    }
    Ok(())
}

// The longest rows of the sharing that was found.
fn rows_of(group: &Group, rooms: &[u32], found: Assignment, work: &mut [u64]) -> LongestRows
    requires rooms { (rooms.now ≡ sharing_of (house group.now)) × (Allowed (house group.now)) }
    requires numbers { (found.persons ≡ array_of (persons_of (house group.now))) × (found.rooms ≡ array_of (prices_of (house group.now))) }
    requires enough { (house group.now).n * (house group.now).n ≤ length work.old }
    ensures lengths { result.d ≡ lengths_of (house group.now) ++ replicate (most_people - (house group.now).n) 0 }
    ensures priors { result.before ≡ priors_of (house group.now) ++ replicate (most_people - (house group.now).n) nobody }
    ensures measured { Measured (house group.now) rooms.now result.d }
    ensures clean { work.new ≡ replicate ((house group.now).n * (house group.now).n) 0
        ++ drop ((house group.now).n * (house group.now).n) work.old }
{
    longest_rows(group, rooms, found.persons, found.rooms, work)
}

// The fairest rents and their cents, by the lengths of the longest rows.
fn price(group: &Group, rooms: &[u32], d: [u64; MOST_PEOPLE], rents: &mut [u64]) -> Outcome
    requires rooms { (rooms.now ≡ sharing_of (house group.now)) × (Allowed (house group.now)) }
    requires lengths { d ≡ lengths_of (house group.now) ++ replicate (most_people - (house group.now).n) 0 }
    requires measured { Measured (house group.now) rooms.now d }
    requires enough { 2 * (house group.now).n ≤ length rents.old }
    ensures rents { rents.new ≡ bits (fair_rents (house group.now))
        ++ (bits (fair_cents (house group.now)) ++ drop (2 * (house group.now).n) rents.old) }
    ensures joint { result.joint ≡ joint_of (house group.now) (sharing_of (house group.now)) }
    ensures least { result.least ≡ spare (house group.now) (sharing_of (house group.now)) (signed (lengths_of (house group.now))) }
{
    let outcome = fairest_rents(group, rooms, d, rents);
    write_cents(group.count(), group.rent(), rents);
    outcome
}

// The share of a group that is taken, on slices that are long enough. The four stay beside one another: each goes to another call, and no two of them
// together.
fn solve(
    group: &Group,
    rooms: &mut [u32],
    rents: &mut [u64],
    work: &mut [u64],
    sheet: &mut [u8],
) -> Shared
    requires enough { ((house group.now).n ≤ length rooms.old) × ((2 * (house group.now).n ≤ length rents.old) × ((work_for (house group.now).n ≤ length work.old) × (sheet_length (house group.now).n ≤ length sheet.old))) }
    ensures rooms { rooms.new ≡ sharing_of (house group.now) ++ drop (house group.now).n rooms.old }
    ensures rents { rents.new ≡ bits (fair_rents (house group.now))
        ++ (bits (fair_cents (house group.now)) ++ drop (2 * (house group.now).n) rents.old) }
    ensures work { work.new ≡ replicate (work_for (house group.now).n) 0 ++ drop (work_for (house group.now).n) work.old }
    ensures sheet { sheet.new ≡ sheet_bytes (house group.now).n (sheet_for (house group.now))
        ++ drop (sheet_length (house group.now).n) sheet.old }
    ensures people { result.people ≡ (house group.now).n }
    ensures joint { result.joint ≡ joint_of (house group.now) (sharing_of (house group.now)) }
    ensures least { result.least ≡ spare (house group.now) (sharing_of (house group.now)) (signed (lengths_of (house group.now))) }
    ensures looks { result.looks ≡ looks_of (house group.now) }
{
    let n = group.count();
    let found = assign(group, rooms, work);
    let placed = &rooms[0..n];
    let LongestRows { d, before, .. } = rows_of(group, placed, found, work);
    let outcome = price(group, placed, d, rents);
    let persons = found.persons;
    let prices = found.rooms;
    let draft = Draft {
        n,
        rooms: placed,
        before,
        d,
        rents,
        persons,
        prices,
    };
    write_sheet(&draft, sheet);
    Shared {
        people: n,
        joint: outcome.joint,
        least: outcome.least,
        looks: found.looks,
    }
}

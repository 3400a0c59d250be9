// Small houses, each shared, and compared with the best of all sharings, by code that has nothing of the solver's.
ghost use Rattle.std.specs.Prelude.{◌<◌, length};

use super::house::House;
use super::lent::Lent;
use super::plain::{best_worth, is_settled, least_gain, signed_sum};
use super::seed::Seed;
use sheet::{Verdict, check, sheet_len};
use std::io;

// What was compared and came out the same, over all houses.
#[derive(Clone, Copy, Default)]
struct Tally {
    taken: u64,
    best: u64,
    settled: u64,
    least: u64,
    cents: u64,
    accepted: u64,
    changed: u64,
    refused: u64,
}

pub(super) fn one_more(times: &mut u64) {
    *times = times.saturating_add(1);
}

// Counts that something holds.
pub(super) fn count(times: &mut u64, holds: bool) {
    if holds {
        one_more(times);
    }
}

// Whether the sheet is refused while byte k is one more.
fn is_refused(group: &[u8], sheet: &mut [u8], k: usize) -> bool
    requires { k < length sheet.old }
{
    sheet[k] = sheet[k].wrapping_add(1);
    let verdict = check(group, sheet);
    sheet[k] = sheet[k].wrapping_sub(1);
    verdict != Verdict::Accepted
}

impl Tally {
    // Tries every byte but those of the persons before, of whom another may be as good. By place, since the whole sheet is checked with the byte changed.
    fn try_changed(&mut self, group: &[u8], sheet: &mut [u8], people: usize) {
        for k in 0..sheet.len() {
            if k / 10 >= people || k % 10 != 1 {
                one_more(&mut self.changed);
                count(&mut self.refused, is_refused(group, sheet, k));
            }
        }
    }

    fn compare(&mut self, house: &House, group: &[u8]) {
        let mut lent = Lent::filled(0);
        let Ok(shared) = lent.share(group) else {
            return;
        };
        // A share for other people than these is none of this house.
        let n = shared.people;
        count(&mut self.taken, n == usize::from(house.people()));
        let rooms = &lent.rooms[..n];
        let rents = &lent.rents[..n];
        let cents = &lent.rents[n..2 * n];
        let sheet = &lent.sheet[..sheet_len(n)];
        let best = best_worth(house);
        let least = best.map(|joint| least_gain(house, rooms, joint));
        count(&mut self.best, best == Some(shared.joint));
        count(&mut self.settled, is_settled(house, rooms, rents));
        count(&mut self.least, least == Some(shared.least));
        count(&mut self.cents, signed_sum(cents) == i64::from(house.rent));
        count(&mut self.accepted, check(group, sheet) == Verdict::Accepted);
        if n <= 3 {
            self.try_changed(group, &mut lent.sheet[..sheet_len(n)], n);
        }
    }

    // Told line by line: what was said stands where standard output takes no more.
    fn tell(&self, rt: &impl Print) -> io::Result<()> {
        println!(rt; "houses of up to 5, of 3000 taken: {}", self.taken)?;
        println!(rt; "joint worth as the best of all sharings: {}", self.best)?;
        println!(rt; "rents add up and settle: {}", self.settled)?;
        println!(rt;
            "least gain as by the longest rows of a plain search: {}",
            self.least
        )?;
        println!(rt; "cents add up: {}", self.cents)?;
        println!(rt; "sheets accepted: {}", self.accepted)?;
        println!(rt;
            "sheets with one byte changed: {}, refused: {}",
            self.changed, self.refused
        )
    }
}

// Three thousand houses of up to five.
pub(super) fn compare_all(rt: &HostRuntime) -> io::Result<()> {
    let heap = rt.alloc();
    let mut tally = Tally::default();
    let mut seed = Seed(1);
    for k in 0..3000 {
        let house = House::small(heap, &mut seed, k)?;
        tally.compare(&house, house.bytes(heap)?.as_slice());
    }
    tally.tell(rt)
}

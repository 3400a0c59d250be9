// The tests of the rents and cents: each is reckoned from the rooms and lengths of the sheet, exactly, whatever its numbers are.
ghost use Rattle.std.specs.Prelude.{◌≡◌, ℕ, ◌^◌, ◌<◌, pos, ◌-ℤ◌, if◌then◌else◌, int_lt, slice_index};
ghost use Rattle.rooms.specs.First.{found};
ghost use Rattle.rooms.specs.House.{room_of, value};
ghost use Rattle.rooms.specs.Rows.{number};
ghost use Rattle.whole.specs.Bounds.{Within};
ghost use Rattle.rents.specs.Faults.{rent_fault};
ghost use Rattle.rents.specs.Rents.{spare, whose};
ghost use Rattle.sheet.specs.Judge.{cents_fault, price_fault};
ghost use Rattle.sheet.specs.Statement.{claimed_by, house_in, sheet_in};

use super::statement::{Sharing, Terms};
use rooms::group::MOST_PEOPLE;
use whole::Whole;

// One cent more for the first rooms, as many as cents are missing. Wider than where cents are written, since a sheet may hold any numbers.
fn cent_more(r: usize, missing: i128) -> i128
    ensures value { result ≡ (if int_lt (pos r) missing then pos 1 else pos 0) }
    ensures within { Within 1 result }
{
    if (r as i128) < missing { 1 } else { 0 }
}

impl Sharing<'_> {
    // What their room is worth to person i, less the length of their row.
    fn own_less(&self, i: usize) -> i128
        requires { i < (house_in self.now.stated).n }
        ensures value { result ≡ value (house_in self.now.stated) i (room_of (claimed_by self.now.stated).room i) -ℤ number (claimed_by self.now.stated).d i }
        ensures within { Within (2 ^ 64) result }
    {
        i128::from(self.stated.group.worth(i, self.room(i))) - self.stated.length(i)
    }

    // What is spare when everybody gains the length of their row. A loop, since an iterator's sum of signed numbers has no bound.
    fn surplus(&self) -> i128
        ensures value { result ≡ spare (house_in self.now.stated) (claimed_by self.now.stated).room (claimed_by self.now.stated).d }
        ensures within { Within (2 ^ 70) result }
    {
        let mut total = 0;
        for i in 0..self.stated.group.count() {
            total += self.own_less(i);
        }
        total - i128::from(self.stated.group.rent())
    }

    // Who has each room. By index, since the place that is written is another than the person.
    fn tenants(&self) -> [u8; MOST_PEOPLE]
        ensures { (r : ℕ) → r < (house_in self.now.stated).n → slice_index result r ≡ whose (house_in self.now.stated) (claimed_by self.now.stated).room r }
    {
        let mut tenant = [0; MOST_PEOPLE];
        for i in 0..self.stated.group.count() {
            tenant[self.room(i)] = i as u8;
        }
        tenant
    }
}

impl<'a> Terms<'a> {
    // What all rents and cents are reckoned from: one surplus, and one division.
    pub fn reckon(sharing: Sharing<'a>) -> Terms<'a>
        ensures { result.sharing ≡ sharing.entry }
    {
        let n = sharing.stated.group.count() as u32;
        let surplus = sharing.surplus();
        let even = (-surplus).floor_div(n);
        let missing = (-surplus).minus(even.times(n));
        Terms {
            sharing,
            surplus,
            even,
            missing,
            tenant: sharing.tenants(),
        }
    }

    // What the room of whoever has room r is worth to them, less the length of their row.
    fn own_less(&self, r: usize) -> i128
        requires { r < (house_in self.now.sharing.stated).n }
        ensures value { let i = whose (house_in self.now.sharing.stated) (claimed_by self.now.sharing.stated).room r in
            result ≡ value (house_in self.now.sharing.stated) i (room_of (claimed_by self.now.sharing.stated).room i) -ℤ number (claimed_by self.now.sharing.stated).d i }
        ensures within { Within (2 ^ 64) result }
    {
        self.sharing.own_less(usize::from(self.tenant[r]))
    }

    // Whether the rent of room r is another than its tenant's.
    pub fn rent_off(&self, r: usize) -> bool
        requires { r < (house_in self.now.sharing.stated).n }
        ensures { result ≡ rent_fault (house_in self.now.sharing.stated) (claimed_by self.now.sharing.stated) r }
    {
        let entries = self.sharing.stated.entries;
        let n = self.sharing.stated.group.count() as u32;
        let due = self.own_less(r).times(n).minus(self.surplus);
        i128::from(entries.rents[r]) != due
    }

    // Whether the cents of room r are others than its tenant's.
    fn cents_off(&self, r: usize) -> bool
        requires { r < (house_in self.now.sharing.stated).n }
        ensures { result ≡ cents_fault (house_in self.now.sharing.stated) (sheet_in self.now.sharing.stated) r }
    {
        let entries = self.sharing.stated.entries;
        let down = self.own_less(r).plus(self.even);
        let cents = down.plus(cent_more(r, self.missing));
        i128::from(entries.cents[r]) != cents
    }

    // Whether the rent or the cents of room r are at fault.
    fn price_off(&self, r: usize) -> bool
        requires { r < (house_in self.now.sharing.stated).n }
        ensures { result ≡ price_fault (house_in self.now.sharing.stated) (sheet_in self.now.sharing.stated) r }
    {
        self.rent_off(r) || self.cents_off(r)
    }

    // The first room whose rent or cents are at fault.
    pub fn first_price(&self) -> Option<usize>
        ensures { result ≡ found (price_fault (house_in self.now.sharing.stated) (sheet_in self.now.sharing.stated)) (house_in self.now.sharing.stated).n }
    {
        (0..self.sharing.stated.group.count()).find(|r| self.price_off(*r))
    }
}

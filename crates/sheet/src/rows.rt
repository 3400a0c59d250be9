// The tests of the longest rows: each finds the first place that is at fault.
ghost use Rattle.std.specs.Prelude.{◌≡◌, ◌≢◌, ◌^◌, ◌<◌, ◌+ℤ◌, MatchOption};
ghost use Rattle.rooms.specs.Before.{leads_back, nobody, on_circle, prior};
ghost use Rattle.rooms.specs.First.{found};
ghost use Rattle.rooms.specs.House.{room_of};
ghost use Rattle.rooms.specs.Rows.{number, way};
ghost use Rattle.whole.specs.Bounds.{Within};
ghost use Rattle.rents.specs.Faults.{length_fault, way_fault};
ghost use Rattle.sheet.specs.Entries.{Linked};
ghost use Rattle.sheet.specs.Pairs.{found_pair};
ghost use Rattle.sheet.specs.Statement.{claimed_by, house_in};

use super::pairs::first_pair;
use super::statement::{Sharing, Statement};
use longest::NOBODY;

impl Statement<'_> {
    // The length of person i's row.
    pub fn length(&self, i: usize) -> i128
        requires { i < (house_in self.now).n }
        ensures value { result ≡ number (claimed_by self.now).d i }
        ensures within { Within (2 ^ 63) result }
    {
        i128::from(self.entries.d[i])
    }

    // Who stands before person i; nobody is a byte on the sheet alone.
    fn before(&self, i: usize) -> Option<usize>
        requires { i < (house_in self.now).n }
        ensures { MatchOption result (prior (claimed_by self.now).before i ≡ nobody)
            (λ k. (prior (claimed_by self.now).before i ≡ k) × (k ≢ nobody)) }
    {
        let entries = self.entries;
        let before = entries.before[i];
        if before == NOBODY {
            None
        } else {
            Some(usize::from(before))
        }
    }

    // Whether going back from j comes to i within as many persons as are left: a recursion along the persons before, as a rule of the project.
    fn leads_back(&self, left: usize, i: usize, j: usize) -> bool
        requires person { j < (house_in self.now).n }
        requires linked { Linked (claimed_by self.now).before (house_in self.now).n }
        ensures { result ≡ leads_back (claimed_by self.now).before left i j }
    {
        if left == 0 {
            return false;
        }
        match self.before(j) {
            None => false,
            Some(before) => before == i || self.leads_back(left - 1, i, before),
        }
    }

    // The first person who stands on a circle of persons before.
    pub fn first_circle(&self) -> Option<usize>
        requires { Linked (claimed_by self.now).before (house_in self.now).n }
        ensures { result ≡ found (on_circle (claimed_by self.now).before (house_in self.now).n) (house_in self.now).n }
    {
        let n = self.group.count();
        (0..n).find(|i| self.leads_back(n, *i, *i))
    }
}

impl Sharing<'_> {
    // Person i's room.
    pub fn room(&self, i: usize) -> usize
        requires { i < (house_in self.now.stated).n }
        ensures own { result ≡ room_of (claimed_by self.now.stated).room i }
        ensures below { result < (house_in self.now.stated).n }
    {
        usize::from(self.stated.entries.room[i])
    }

    // The length of person k's row and the way from k to i.
    fn reach(&self, k: usize, i: usize) -> i128
        requires { (k < (house_in self.now.stated).n) × (i < (house_in self.now.stated).n) }
        ensures { result ≡ number (claimed_by self.now.stated).d k +ℤ way (house_in self.now.stated) (claimed_by self.now.stated).room k i }
    {
        let room = self.room(k);
        let seen = i128::from(self.stated.group.worth(i, room));
        let own = i128::from(self.stated.group.worth(k, room));
        self.stated.length(k) + (seen - own)
    }

    // Whether person i's length or person before is at fault.
    fn length_off(&self, i: usize) -> bool
        requires { i < (house_in self.now.stated).n }
        ensures { result ≡ length_fault (house_in self.now.stated) (claimed_by self.now.stated) i }
    {
        let d = self.stated.length(i);
        if d < 0 {
            return true;
        }
        match self.stated.before(i) {
            None => d != 0,
            Some(before) => before >= self.stated.group.count() || d != self.reach(before, i),
        }
    }

    // The first person whose length or person before is at fault.
    pub fn first_length(&self) -> Option<usize>
        ensures { result ≡ found (length_fault (house_in self.now.stated) (claimed_by self.now.stated)) (house_in self.now.stated).n }
    {
        (0..self.stated.group.count()).find(|i| self.length_off(*i))
    }

    // Whether the way from k to i leads to more.
    fn way_off(&self, k: usize, i: usize) -> bool
        requires { (k < (house_in self.now.stated).n) × (i < (house_in self.now.stated).n) }
        ensures { result ≡ way_fault (house_in self.now.stated) (claimed_by self.now.stated) k i }
    {
        self.stated.length(i) < self.reach(k, i)
    }

    // The first person from whom a way leads to more, and to whom.
    pub fn first_ways(&self) -> Option<(usize, usize)>
        ensures { result ≡ found_pair (way_fault (house_in self.now.stated) (claimed_by self.now.stated)) (house_in self.now.stated).n }
    {
        first_pair(self.stated.group.count(), |k, i| self.way_off(k, i))
    }
}

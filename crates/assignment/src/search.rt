// The search of one round: from a person, by shortest ways, to the nearest room that nobody placed holds.
ghost use Rattle.std.specs.Prelude.{◌≡◌, ℕ, ◌+◌, ◌-◌, ◌*◌, ◌<◌, ◌≤◌, ◌==◌, length, position};
ghost use Rattle.rooms.specs.House.{worth_at};
ghost use Rattle.rooms.specs.Format.{most_people, most_worth};
ghost use Rattle.rooms.specs.View.{house};
ghost use Rattle.assignment.specs.Search.{at, list_of, offers, with_row, nearer, parents, nearest_of, tree_of};
ghost use Rattle.assignment.specs.Slices.{state_of, tree_at};
ghost use Rattle.assignment.specs.Between.{Ready, Stands};

use super::slices::{Standing, Tree};
use rooms::Group;
use rooms::group::MOST_PEOPLE;

// A person's row of offers: for each room the base and the room's number, above the worth.
fn offer(mine: [u32; MOST_PEOPLE], base: u64, prices: &[u64], row: &mut [u64])
    requires sizes { (length prices.now ≤ most_people) × (length row.old ≡ length prices.now) × (base ≤ 3 * most_worth) }
    requires covered { (r : ℕ) → r < length prices.now → at mine r ≤ base + at prices.now r }
    requires prices { (r : ℕ) → r < length prices.now → at prices.now r ≤ most_worth }
    ensures { row.new ≡ list_of (λ r. base + at prices.now r - at mine r) (length prices.now) }
{
    for (r, offer) in row.iter_mut().enumerate() {
        *offer = base + prices[r] - u64::from(mine[r]);
    }
}

// Person i's row of all rows is written: what i offers at distance d. The rows come apart from the tree, whose other lists stay as they are.
// Who reads it then lends it by &mut: a & is not covered by the borrow checker where other fields of the tree are lent beside it.
fn write_row(rows: &mut [u64], group: &Group, i: usize, d: u64, standing: &Standing)
    requires person { (i < (house group.now).n) × (d ≤ 2 * most_worth) }
    requires ready { Ready (house group.now).n most_worth (worth_at (house group.now)) standing.now.persons.now standing.now.prices.now }
    requires sizes { length rows.old ≡ (house group.now).n * (house group.now).n }
    ensures { rows.new
        ≡ with_row (house group.now).n i rows.old (offers (worth_at (house group.now)) (house group.now).n standing.now.persons.now standing.now.prices.now i d) }
{
    let n = group.count();
    let mine = group.row(i);
    let row = &mut rows[i * n..i * n + n];
    offer(mine, d + standing.persons[i], standing.prices, row);
}

// Person i's row of offers is taken where it is lower.
fn merge(row: &[u64], i: usize, distance: &mut [u64], parent: &mut [u64])
    requires { (length distance.old ≡ length row.now) × (length parent.old ≡ length row.now) }
    ensures near { distance.new ≡ nearer (length row.now) row.now distance.old }
    ensures by { parent.new ≡ parents (length row.now) i row.now distance.old parent.old }
{
    // Two slices are written, so both are indexed: after a zip of them a proof knows no element.
    for (r, offer) in row.iter().enumerate() {
        if *offer < distance[r] {
            distance[r] = *offer;
            parent[r] = i as u64;
        }
    }
}

// The first room that is not reached.
fn first_fresh(turn: &[u64]) -> Option<usize>
    ensures { result ≡ position (λ t. t == 0) turn.now }
{
    turn.iter().position(|t| *t == 0)
}

impl Tree<'_> {
    // Person p joins first: their row is written, and is all that is known.
    fn start(&mut self, group: &Group, p: usize, standing: &Standing)
        requires person { p < (house group.now).n }
        requires ready { Ready (house group.now).n most_worth (worth_at (house group.now)) standing.now.persons.now standing.now.prices.now }
        requires people { self.old.n ≡ (house group.now).n }
        ensures near { self.new.distance.now ≡ offers (worth_at (house group.now)) (house group.now).n standing.now.persons.now standing.now.prices.now p 0 }
        ensures by { self.new.parent.now ≡ list_of (λ _. p) (house group.now).n }
        ensures fresh { self.new.turn.now ≡ list_of (λ _. 0) (house group.now).n }
        ensures people { self.new.n ≡ (house group.now).n }
    {
        let n = self.n;
        write_row(self.rows, group, p, 0, standing);
        let row = &mut self.rows[p * n..p * n + n];
        self.distance.copy_from_slice(row);
        self.parent.fill(p as u64);
        self.turn.fill(0);
    }

    // Person i joins at distance d: their row is written, and taken where it is lower.
    fn relax(&mut self, group: &Group, i: usize, d: u64, standing: &Standing)
        requires person { (i < (house group.now).n) × (d ≤ 2 * most_worth) }
        requires ready { Ready (house group.now).n most_worth (worth_at (house group.now)) standing.now.persons.now standing.now.prices.now }
        requires people { self.old.n ≡ (house group.now).n }
        ensures near { self.new.distance.now
            ≡ nearer (house group.now).n (offers (worth_at (house group.now)) (house group.now).n standing.now.persons.now standing.now.prices.now i d) self.old.distance.now }
        ensures by { self.new.parent.now
            ≡ parents (house group.now).n i (offers (worth_at (house group.now)) (house group.now).n standing.now.persons.now standing.now.prices.now i d) self.old.distance.now self.old.parent.now }
        ensures turns { self.new.turn.now ≡ self.old.turn.now }
        ensures people { self.new.n ≡ (house group.now).n }
    {
        let n = self.n;
        write_row(self.rows, group, i, d, standing);
        let row = &mut self.rows[i * n..i * n + n];
        merge(row, i, self.distance, self.parent);
    }

    // The nearest room that is not reached, of several as near the first; there is one. By hand, since the
    // library's minimum does not say which of several as low it answers.
    fn nearest(&self) -> usize
        requires sizes { length self.now.distance.now ≡ length self.now.turn.now }
        requires some { (q : ℕ) × (q < length self.now.turn.now) × (at self.now.turn.now q ≡ 0) }
        ensures model { result ≡ nearest_of (length self.now.turn.now) (at self.now.distance.now) (at self.now.turn.now) (length self.now.turn.now) }
        ensures here { result < length self.now.turn.now }
    {
        let mut near = first_fresh(self.turn).unwrap();
        for (r, turn) in self.turn.iter().enumerate() {
            if *turn == 0 && self.distance[r] < self.distance[near] {
                near = r;
            }
        }
        near
    }
}

// The tree of round p grows to the nearest room that nobody placed holds, which is answered; its turn counts the persons who joined.
pub fn grow(group: &Group, p: usize, standing: &Standing, tree: &mut Tree) -> usize
    requires person { p < (house group.now).n }
    requires stands { Stands (house group.now).n most_worth (worth_at (house group.now)) p (state_of standing.now) }
    requires people { tree.old.n ≡ (house group.now).n }
    ensures here { (result < (house group.now).n) × (at tree.new.turn.now result ≤ p + 1) }
    ensures model { tree_at result tree.new
        ≡ tree_of (worth_at (house group.now)) (house group.now).n p standing.now.persons.now standing.now.prices.now standing.now.rooms.holder.now }
    ensures people { tree.new.n ≡ (house group.now).n }
{
    let n = group.count();
    tree.start(group, p, standing);
    for k in 0..n {
        let r = tree.nearest();
        tree.turn[r] = k as u64 + 1;
        let i = standing.rooms.holder[r] as usize;
        if i >= p {
            return r;
        }
        let d = tree.distance[r];
        tree.relax(group, i, d, standing);
    }
    unreachable()
}

// The longest rows of ways among people: for a sharing of highest joint worth, the length of the longest row of ways that ends at each person, and
// who stands before them in it. Where one list is written by what stands in another, the other is indexed: after a zip of a slice that is written a
// proof knows none of its elements.
#![tactic(auto)]

ghost use Rattle.std.specs.Prelude.{◌≡◌, ℕ, ◌+◌, ◌-◌, ◌*◌, ◌<◌, ◌≤◌, ◌++◌, map, length, drop, replicate};
ghost use Rattle.std.specs.List.{range_with_len};
ghost use Rattle.rooms.specs.Format.{most_people, most_worth};
ghost use Rattle.rooms.specs.Rows.{Longest, signed};
ghost use Rattle.rooms.specs.Before.{RowsShown, nobody};
ghost use Rattle.rooms.specs.View.{house};
ghost use Rattle.assignment.specs.Search.{at};
ghost use Rattle.longest.specs.Run.{in_table, Table, through, first_offers, run, start};
ghost use Rattle.longest.specs.View.{lefts, befores, offered, standing};
ghost use Rattle.assignment.specs.Promise.{Solved};
ghost use Rattle.longest.specs.Promise.{work_len, Found, SearchEnds, SameRun, OneLongest};

use rooms::Group;
use rooms::group::MOST_PEOPLE;

#[cfg(test)]
mod tests;

// Stands for nobody before a person: a sheet's byte, of which the search knows nothing.
pub const NOBODY: u8 = 255;

// How many numbers of work n people take.
pub fn work_len(n: usize) -> usize
    requires { n ≤ most_people }
    ensures { result ≡ work_len n }
{
    n * n // a slack for each way
}

// The lengths d of the longest rows, and who stands before each person in them: nothing and nobody past the n people. And how many rounds it took.
// No heap in the libraries, so arrays of the most people.
#[derive(Clone, Copy)]
pub struct LongestRows {
    pub d: [u64; MOST_PEOPLE],
    pub before: [u8; MOST_PEOPLE],
    pub rounds: usize,
}

// The longest rows of a sharing with numbers that show it best. All else is done on work, of which the first work_len(n) are 0 after.
// The numbers come one by one, and not as an Assignment, since a caller may have them from elsewhere.
pub fn longest_rows(
    group: &Group,
    rooms: &[u32],
    persons: [u64; MOST_PEOPLE],
    prices: [u64; MOST_PEOPLE],
    work: &mut [u64],
) -> LongestRows
    requires solved { Solved (house group.now) most_worth rooms.now persons prices }
    requires enough { work_len (house group.now).n ≤ length work.old }
    ensures found { Found (house group.now) rooms.now persons prices result.d result.before result.rounds }
    ensures shown { RowsShown (house group.now) rooms.now (signed result.d) result.before }
    ensures longest { Longest (house group.now) rooms.now (signed result.d) }
    ensures high { (i : ℕ) → at result.d i ≤ most_worth }
    ensures few { result.rounds < (house group.now).n }
    ensures clean { work.new ≡ replicate (work_len (house group.now).n) 0 ++ drop (work_len (house group.now).n) work.old }
{
    let best = Best {
        group: *group,
        rooms,
        persons,
        prices,
    };
    let needed = work_len(group.count());
    let found = best.longest(&mut work[0..needed]);
    work[0..needed].fill(0);
    found
}

// What holds of the search and of the longest rows, whatever the house.
pub fn rows_stand()
    ensures ends { SearchEnds }
    ensures same { SameRun }
    ensures one { OneLongest }
{}

// A sharing of highest joint worth, with numbers that show it best. No heap in the libraries, so arrays of the most people.
#[derive(Drop)]
struct Best<'a> {
    group: Group<'a>,
    rooms: &'a [u32],
    persons: [u64; MOST_PEOPLE],
    prices: [u64; MOST_PEOPLE],
    ghost solved: { Solved (house group) most_worth rooms.now persons prices },
}

// The slacks of the ways among n people, a line for the ways to each of them.
#[derive(Clone, Copy)]
struct Ways<'a> {
    n: usize,
    slacks: &'a [u64],
    ghost table: { Table n slacks.now },
}

// A row that ends at a person: what it leaves of their number, and who stands before them.
#[derive(Clone, Copy, Default)]
struct Row {
    left: u64,
    before: Option<u8>,
}

impl Best<'_> {
    ghost use Rattle.longest.specs.Held.{people, slack_by};

    // One person's line of the table: the slack of the way to them from each person, by what each room is worth to them.
    fn write_slacks(&self, i: usize, line: &mut [u64])
        requires { (i < people self.now) × (length line.old ≡ people self.now) }
        ensures { (k : ℕ) → k < people self.now → at line.new k ≡ slack_by self.now k i }
    {
        let mine = self.group.row(i);
        let number = self.persons[i];
        for (k, slack) in line.iter_mut().enumerate() {
            let r = self.rooms[k] as usize;
            *slack = number + self.prices[r] - u64::from(mine[r]);
        }
    }

    // The table of slacks, a line for each person.
    fn write_table(&self, table: &mut [u64])
        requires { length table.old ≡ people self.now * people self.now }
        ensures { (k i : ℕ) → k < people self.now → i < people self.now
            → in_table table.new (people self.now) k i ≡ slack_by self.now k i }
    {
        let n = self.group.count();
        // a person's line of the table is lent on to be written
        for i in 0..n {
            self.write_slacks(i, &mut table[i * n..i * n + n]);
        }
    }

    // The longest rows, on a table of just the right length.
    fn longest(&self, table: &mut [u64]) -> LongestRows
        requires { length table.old ≡ people self.now * people self.now }
        ensures { Found (house self.now.group) self.now.rooms.now self.now.persons self.now.prices result.d result.before result.rounds }
    {
        self.write_table(table);
        let n = self.group.count();
        let ways = Ways { n, slacks: table };
        let mut all = [Row::default(); MOST_PEOPLE];
        let mut offers = all;
        let rows = &mut all[0..n];
        stand_alone(&self.persons[0..n], rows);
        let rounds = ways.search(rows, &mut offers[0..n]);
        LongestRows {
            d: lengths(self.persons, rows),
            before: befores(rows),
            rounds,
        }
    }
}

// Everybody stands alone in their row.
fn stand_alone(numbers: &[u64], rows: &mut [Row])
    requires { length rows.old ≡ length numbers.now }
    ensures left { lefts rows.new ≡ numbers.now }
    ensures nobody { befores rows.new ≡ replicate (length numbers.now) nobody }
{
    for (i, row) in rows.iter_mut().enumerate() {
        *row = Row {
            left: numbers[i],
            before: None,
        };
    }
}

// What the longest row to each person takes of their number: its length. Nothing past the people.
fn lengths(persons: [u64; MOST_PEOPLE], rows: &[Row]) -> [u64; MOST_PEOPLE]
    requires { (length rows.now ≤ most_people) × ((i : ℕ) → i < length rows.now → at (lefts rows.now) i ≤ at persons i) }
    ensures { result ≡ map (λ i. at persons i - at (lefts rows.now) i) (range_with_len 0 (length rows.now))
        ++ replicate (most_people - length rows.now) 0 }
{
    let mut d = [0; MOST_PEOPLE];
    for (i, row) in rows.iter().enumerate() {
        d[i] = persons[i] - row.left;
    }
    d
}

// Who stands before each person. Nobody past the people.
fn befores(rows: &[Row]) -> [u8; MOST_PEOPLE]
    requires { length rows.now ≤ most_people }
    ensures { result ≡ befores rows.now ++ replicate (most_people - length rows.now) nobody }
{
    let mut before = [NOBODY; MOST_PEOPLE];
    for (i, row) in rows.iter().enumerate() {
        before[i] = row.before.unwrap_or(NOBODY);
    }
    before
}

impl Ways<'_> {
    ghost use Rattle.longest.specs.Held.{slack_in};

    // The slack of the way from person k to person i.
    fn slack(&self, k: usize, i: usize) -> u64
        requires { (k < self.now.n) × (i < self.now.n) }
        ensures value { result ≡ slack_in self.now k i }
        ensures small { result ≤ 2 * most_worth }
    {
        self.slacks[i * self.n + k]
    }

    // Everybody takes the row through person k, which leaves `rest` to k, where it leaves less than their best offer.
    fn offer_through(&self, k: usize, rest: u64, offers: &mut [Row])
        requires { (length offers.old ≡ self.now.n) × (k < self.now.n) × (rest ≤ most_worth) }
        ensures { offered offers.new ≡ through (slack_in self.now) self.now.n k rest (offered offers.old) }
    {
        for (i, offer) in offers.iter_mut().enumerate() {
            let left = rest + self.slack(k, i);
            if left < offer.left {
                *offer = Row {
                    left,
                    before: Some(k as u8),
                };
            }
        }
    }

    // The first offers: everybody alone, and then the ways from each person.
    fn first_offers(&self, rows: &[Row], offers: &mut [Row])
        requires sizes { (length rows.now ≡ self.now.n) × (length offers.old ≡ self.now.n) }
        requires alone { befores rows.now ≡ replicate self.now.n nobody }
        requires small { (i : ℕ) → i < self.now.n → at (lefts rows.now) i ≤ most_worth }
        ensures { offered offers.new
            ≡ first_offers (slack_in self.now) self.now.n (lefts rows.now) self.now.n }
    {
        offers.copy_from_slice(rows);
        for (k, row) in rows.iter().enumerate() {
            self.offer_through(k, row.left, offers);
        }
    }

    // Makes rows longer, one in a round: that of the person whose offer leaves least, until no offer makes one longer. How many rounds it took.
    // Nested loops over people, left by the label when nothing gets longer, as the project wants this search to be read.
    // The least is found by hand, since the library's minimum does not say which of several as low it answers.
    fn lengthen(&self, rows: &mut [Row], offers: &mut [Row]) -> usize
        requires sizes { (length rows.old ≡ self.now.n) × (length offers.old ≡ self.now.n) }
        requires small { (i : ℕ) → i < self.now.n → at (lefts rows.old) i ≤ most_worth }
        ensures { standing rows.new offers.new result
            ≡ run (slack_in self.now) self.now.n self.now.n (standing rows.old offers.old 0) }
    {
        let mut rounds = 0;
        'longer: for round in 0..self.n {
            let mut next: Option<(usize, u64)> = None;
            for (i, offer) in offers.iter().enumerate() {
                if offer.left < rows[i].left && next.is_none_or(|(_, least)| offer.left < least) {
                    next = Some((i, offer.left));
                }
            }
            let Some((to, rest)) = next else {
                break 'longer;
            };
            rows[to] = offers[to];
            self.offer_through(to, rest, offers);
            rounds = round + 1;
        }
        rounds
    }

    // The search for the longest rows, from everybody alone. How many rounds it took.
    fn search(&self, rows: &mut [Row], offers: &mut [Row]) -> usize
        requires sizes { (length rows.old ≡ self.now.n) × (length offers.old ≡ self.now.n) }
        requires alone { befores rows.old ≡ replicate self.now.n nobody }
        requires small { (i : ℕ) → i < self.now.n → at (lefts rows.old) i ≤ most_worth }
        ensures { standing rows.new offers.new result
            ≡ run (slack_in self.now) self.now.n self.now.n
            (start (slack_in self.now) self.now.n (lefts rows.old)) }
    {
        self.first_offers(rows, offers);
        self.lengthen(rows, offers)
    }
}

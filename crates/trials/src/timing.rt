// Groups made from a seed, shared and checked, and how long each part takes.
ghost use Rattle.std.specs.Prelude.{◌<◌, ◌≤◌};
ghost use Rattle.rooms.specs.declared.group.TheConstants.{MOST_PEOPLE};

use super::compare::count;
use super::kinds::{KINDS, Kind};
use super::lent::Lent;
use super::seed::Seed;
use assignment::assign;
use longest::longest_rows;
use rooms::group::MOST_PEOPLE;
use rooms::{Group, Refusal};
use sheet::{Verdict, check, sheet_len};
use std::alloc::{AllocError, Global};
use std::time::Instant;
use std::{fmt, io};

// So many houses of n people, of one kind.
#[derive(Clone, Copy)]
struct Lot {
    n: u8,
    kind: Kind,
    count: u64,
}

impl fmt::Display for Lot {
    fn fmt<W: fmt::Write>(&self, f: &mut fmt::Formatter<W>) -> fmt::Result {
        write!(f, "n {} {}", self.n, self.kind)
    }
}

// A group, and the sheet of its share.
#[derive(Clone, Copy)]
struct Case<'a> {
    group: &'a [u8],
    sheet: &'a [u8],
}

// The cases of a lot. All its groups are as long as one another, and so are their sheets: they lie one after the other, since a lot may have millions.
#[derive(Drop)]
struct Cases {
    n: usize,
    groups: Vec<u8>,
    sheets: Vec<u8>,
    ghost some: { 0 < n },
    ghost few: { n ≤ MOST_PEOPLE },
}

// How long the group of n people is.
fn group_len(n: usize) -> usize
    requires { n ≤ MOST_PEOPLE }
    ensures { 0 < result }
{
    5 + 4 * (n * n)
}

// How long a pass over all cases took, in nanoseconds: up to the end of each part of a share, and checking.
#[derive(Clone, Copy)]
struct Times {
    read: u64,
    sharing: u64,
    rows: u64,
    share: u64,
    check: u64,
}

impl Times {
    // The faster of two passes, part by part.
    fn faster(self, other: Times) -> Times {
        Times {
            read: self.read.min(other.read),
            sharing: self.sharing.min(other.sharing),
            rows: self.rows.min(other.rows),
            share: self.share.min(other.share),
            check: self.check.min(other.check),
        }
    }

    // What each part took for a group of so many: what its end took longer than that of the part before.
    fn tell(self, rt: &HostRuntime, lot: Lot) -> io::Result<()> {
        let each = |nanos: u64| nanos / lot.count.max(1);
        let read = each(self.read);
        let sharing = each(self.sharing.saturating_sub(self.read));
        let rows = each(self.rows.saturating_sub(self.sharing));
        let rest = each(self.share.saturating_sub(self.rows));
        let share = each(self.share);
        let check = each(self.check);
        eprintln!(rt;
            "{lot}: read {read} sharing {sharing} rows {rows} rents-and-sheet {rest} share {share} check {check}"
        )
    }
}

// The parts of a share up to the sharing: how many looks.
fn looks(bytes: &[u8], lent: &mut Lent) -> Result<u64, Refusal> {
    let group = Group::try_from(bytes)?;
    let found = assign(&group, &mut lent.rooms, &mut lent.work);
    Ok(found.looks)
}

// The parts of a share up to the longest rows: how many rounds.
fn rounds(bytes: &[u8], lent: &mut Lent) -> Result<u64, Refusal> {
    let group = Group::try_from(bytes)?;
    let found = assign(&group, &mut lent.rooms, &mut lent.work);
    let rows = longest_rows(
        &group,
        &lent.rooms,
        found.persons,
        found.rooms,
        &mut lent.work,
    );
    Ok(rows.rounds as u64)
}

// Another number of an answer, taken into the sum of all.
pub(super) fn mix(sum: u64, x: u64) -> u64 {
    (sum ^ x).wrapping_mul(1_099_511_628_211)
}

// What came out of all groups of a kind.
#[derive(Clone, Copy, Default)]
struct Answers {
    looks: u64,
    rounds: u64,
    accepted: u64,
    sum: u64,
}

impl Answers {
    // Shares and checks one group, takes all that was answered into the sum, and keeps its sheet. One that is refused is no failure.
    fn take(
        &mut self,
        group: &[u8],
        lent: &mut Lent,
        sheets: &mut Vec<u8>,
    ) -> Result<(), AllocError> {
        let Ok(shared) = lent.share(group) else {
            return Ok(());
        };
        let n = shared.people;
        let sheet = &lent.sheet[..sheet_len(n)];
        let totals = [
            shared.joint.cast_unsigned(),
            shared.least.cast_unsigned(),
            shared.looks,
        ];
        let rooms = lent.rooms[..n].iter().map(|room| u64::from(*room));
        let rents = lent.rents[..2 * n].iter().copied();
        let bytes = sheet.iter().map(|byte| u64::from(*byte));
        self.sum = totals.into_iter().fold(self.sum, mix);
        self.sum = rooms.fold(self.sum, mix);
        self.sum = rents.fold(self.sum, mix);
        self.sum = bytes.fold(self.sum, mix);
        let accepted = check(group, sheet) == Verdict::Accepted;
        sheets.extend_from_slice(sheet)?;
        let rounds = rounds(group, lent).unwrap_or(0);
        self.looks = self.looks.wrapping_add(shared.looks);
        self.rounds = self.rounds.wrapping_add(rounds);
        count(&mut self.accepted, accepted);
        Ok(())
    }
}

// The groups of a lot, one after the other.
fn groups_of(heap: Global, lot: Lot) -> Result<Vec<u8>, AllocError> {
    let mut seed = Seed(u64::from(lot.n));
    let mut groups = Vec::new(heap);
    for _ in 0..lot.count {
        let house = lot.kind.house(heap, &mut seed, lot.n)?;
        // Byte by byte, so that the room for them doubles from a few bytes on, however long a group is.
        for byte in house.bytes(heap)?.as_slice() {
            groups.push(*byte)?;
        }
    }
    Ok(groups)
}

// The groups of a lot with their sheets, and what came out of them. All groups are made first, so that each list grows by itself.
fn answer_lot(heap: Global, lot: Lot) -> Result<(Cases, Answers), AllocError> {
    let n = usize::from(lot.n).max(1).min(MOST_PEOPLE);
    let groups = groups_of(heap, lot)?;
    let mut sheets = Vec::new(heap);
    let mut lent = Lent::filled(0);
    let mut answers = Answers::default();
    for group in groups.chunks_exact(group_len(n)) {
        answers.take(group, &mut lent, &mut sheets)?;
    }
    let cases = Cases { n, groups, sheets };
    Ok((cases, answers))
}

// Times cases, one after the other. `seen` takes their answers, so that none is left out as unused.
#[derive(Drop)]
struct Stopwatch<'a> {
    rt: &'a HostRuntime,
    seen: u64,
}

impl Stopwatch<'_> {
    // How long all cases take, in nanoseconds.
    fn time<F: FnMut(&Case) -> Result<u64, Refusal>>(
        &mut self,
        cases: &Cases,
        mut answer: F,
    ) -> io::Result<u64>
        requires { F.IsAlwaysCallable answer }
    {
        let groups = cases.groups.chunks_exact(group_len(cases.n));
        let sheets = cases.sheets.chunks_exact(sheet_len(cases.n));
        let start = Instant::now(self.rt)?;
        for (group, sheet) in groups.zip(sheets) {
            self.seen = self
                .seen
                .wrapping_add(answer(&Case { group, sheet }).unwrap_or(0));
        }
        let took = start.elapsed(self.rt)?;
        Ok(u64::try_from(took.as_nanos()).unwrap_or(u64::MAX))
    }

    fn time_pass(&mut self, cases: &Cases) -> io::Result<Times> {
        let mut lent = Lent::filled(0);
        Ok(Times {
            read: self.time(cases, |case| {
                Group::validate(case.group)?;
                Ok(1)
            })?,
            sharing: self.time(cases, |case| looks(case.group, &mut lent))?,
            rows: self.time(cases, |case| rounds(case.group, &mut lent))?,
            share: self.time(cases, |case| Ok(lent.share(case.group)?.looks))?,
            check: self.time(cases, |case| {
                let verdict = check(case.group, case.sheet);
                Ok(u64::from(verdict == Verdict::Accepted))
            })?,
        })
    }

    // The fastest of the passes, part by part.
    fn time_passes(&mut self, cases: &Cases, passes: u64) -> io::Result<Times> {
        let mut best = self.time_pass(cases)?;
        for _ in 1..passes {
            best = best.faster(self.time_pass(cases)?);
        }
        Ok(best)
    }

    // A lot: what came out of it on standard output, and how long it took on standard error.
    fn time_lot(&mut self, lot: Lot, passes: u64) -> io::Result<()> {
        let rt = self.rt;
        let (cases, answers) = answer_lot(rt.alloc(), lot)?;
        println!(rt;
            "{lot}: houses {} looks {} rounds {} accepted {} sum {}",
            lot.count, answers.looks, answers.rounds, answers.accepted, answers.sum
        )?;
        self.time_passes(&cases, passes)?.tell(rt, lot)
    }
}

// `count` groups of 2, 6, 12 and 24 people, or of n alone, of every kind.
pub(super) fn time_all(
    rt: &HostRuntime,
    count: u64,
    passes: u64,
    only: Option<u64>,
) -> io::Result<()> {
    let mut watch = Stopwatch { rt, seen: 0 };
    for n in [2u8, 6, 12, 24] {
        if only.is_none_or(|only| only == u64::from(n)) {
            for kind in KINDS {
                watch.time_lot(Lot { n, kind, count }, passes)?;
            }
        }
    }
    eprintln!(rt; "seen {}", watch.seen)
}

// Groups and sheets by the million, sound and damaged, through one process: what is answered, and whether every refusal is well formed.
ghost use Rattle.std.specs.Prelude.{◌<◌, ◌≤◌};
ghost use Rattle.rooms.specs.declared.group.TheConstants.{MOST_PEOPLE};
ghost use Rattle.sheet.specs.declared.sharing.TheConstants.{MOST_RENTS, MOST_WORK, MOST_SHEET};

use super::compare::{count, one_more};
use super::kinds::KINDS;
use super::lent::Lent;
use super::seed::Seed;
use super::timing::mix;
use assignment::work_len;
use rooms::group::MOST_PEOPLE;
use sheet::sharing::{MOST_RENTS, MOST_SHEET, MOST_WORK};
use sheet::{check, share, sheet_len};
use std::alloc::{AllocError, Global};
use std::{fmt, io};

// What was answered so far.
#[derive(Clone, Copy, Default)]
struct Tally {
    // Groups taken and sheets accepted.
    taken: u64,
    // Refusals by their numbers, from 1 on.
    refused: [u64; 11],
    // The sum over all answers.
    sum: u64,
    // Refusals with a place that can't be, or another text than their number's and place's.
    ill_formed: u64,
    // Refusals that changed a lent slice.
    changed: u64,
}

impl Tally {
    // Takes a refusal into the sum, or that nothing was refused.
    fn take(&mut self, refused: Option<Fault>) {
        let (number, place) = refused.map_or((0, 0), |fault| (fault.number, fault.place));
        self.sum = mix(
            mix(self.sum, u64::from(number)),
            (place & 0xffff_ffff) as u64,
        );
    }

    fn accept(&mut self) {
        one_more(&mut self.taken);
        self.take(None);
    }

    fn refuse(&mut self, fault: Fault) {
        if let Some(k) = fault.number.checked_sub(1)
            && let Some(times) = self.refused.get_mut(k as usize)
        {
            one_more(times);
        }
        self.take(Some(fault));
    }

    // Told piece by piece: what was said stands where standard output takes no more.
    fn tell(&self, rt: &impl Print, count: u64) -> io::Result<()> {
        print!(rt; "groups {count}, taken or accepted {}, refused", self.taken)?;
        for (number, times) in (1u32..).zip(&self.refused) {
            print!(rt; " {number}: {times}")?;
        }
        println!(rt;
            ", ill formed {}, changing what was lent {}, sum {}",
            self.ill_formed, self.changed, self.sum
        )
    }
}

// What stands in a lent slice before a call, so that a write is seen.
const MARK: u8 = 77;

// What is refused, and where. Its kind is the number that is printed, so that numbers are tried too.
#[derive(Clone, Copy)]
struct Fault {
    number: u32,
    place: u128,
}

impl fmt::Display for Fault {
    fn fmt<W: fmt::Write>(&self, f: &mut fmt::Formatter<W>) -> fmt::Result {
        write!(f, "refused {} at {}", self.number, self.place)
    }
}

impl Fault {
    // Whether it can stand at its place, by the people of the group and the lengths of group and sheet.
    fn can_be(self, group: &[u8], sheet: &[u8]) -> bool {
        let place = self.place;
        let people = group.first().copied().map_or(0, u128::from);
        let pair = place / 32 < people && place % 32 < people;
        match self.number {
            1 => place <= group.len() as u128,
            2 => place == 0,
            3 => place == 1,
            4 => place >= 5 && place % 4 == 1 && place < group.len() as u128,
            5 => place < 4,
            6 => place == sheet.len() as u128,
            7 | 9 => place < people,
            8 | 10 => pair,
            11 => place < people || (place >= 32 && place - 32 < people),
            _ => false,
        }
    }
}

// How much of each slice is lent.
#[derive(Clone, Copy)]
struct Lengths {
    rooms: usize,
    rents: usize,
    work: usize,
    sheet: usize,
    ghost rooms_within: { rooms ≤ MOST_PEOPLE },
    ghost rents_within: { rents ≤ MOST_RENTS },
    ghost work_within: { work ≤ MOST_WORK },
    ghost sheet_within: { sheet ≤ MOST_SHEET },
}

const ALL: Lengths = Lengths {
    rooms: MOST_PEOPLE,
    rents: MOST_RENTS,
    work: MOST_WORK,
    sheet: MOST_SHEET,
};

impl Lengths {
    // One of the slices is too short for so many people.
    fn too_short(seed: &mut Seed, people: u8) -> Lengths
        requires some { 0 < people }
        requires few { people ≤ MOST_PEOPLE }
    {
        let n = usize::from(people);
        let mut lengths = ALL;
        // As a die: the draw picks what is too short.
        match seed.draw(3) {
            0 => lengths.rooms = n - 1,
            1 => lengths.rents = 2 * n - 1,
            2 => lengths.work = work_len(n) - 1,
            _ => lengths.sheet = sheet_len(n) - 1,
        }
        lengths
    }
}

// A sheet in which everybody stands alone, so that only ways tell it from the longest rows.
fn separate(sheet: &mut [u8], people: u8) {
    for person in sheet.chunks_exact_mut(10).take(usize::from(people)) {
        if let [_, before, length @ ..] = person {
            *before = 255;
            length.fill(0);
        }
    }
}

// A seed, and what was answered to the groups and sheets made from it.
#[derive(Drop)]
struct Trial {
    heap: Global,
    seed: Seed,
    // Slices that were not written to.
    unused: Lent,
    tally: Tally,
}

impl Trial {
    // Counts a refusal by its fault, and whether it is well formed.
    fn refuse<T: fmt::Display>(
        &mut self,
        refusal: &T,
        fault: Fault,
        group: &[u8],
        sheet: &[u8],
    ) -> Result<(), AllocError> {
        let text = format!(in self.heap; "{refusal}")?;
        let wanted = format!(in self.heap; "{fault}")?;
        let well_formed = fault.can_be(group, sheet) && text == wanted;
        count(&mut self.tally.ill_formed, !well_formed);
        self.tally.refuse(fault);
        Ok(())
    }

    // Checks a sheet, and counts the verdict.
    fn try_sheet(&mut self, group: &[u8], sheet: &[u8]) -> Result<(), AllocError> {
        let verdict = check(group, sheet);
        match verdict.fault() {
            None => {
                self.tally.accept();
                Ok(())
            }
            Some((number, place)) => {
                self.refuse(&verdict, Fault { number, place }, group, sheet)
            }
        }
    }

    // Shares a group on slices of these lengths, and counts the answer. Its sheet; none where it is refused, which is no failure.
    fn try_group(&mut self, group: &[u8], lengths: Lengths) -> Result<Option<Vec<u8>>, AllocError> {
        let mut lent = self.unused;
        let outcome = share(
            group,
            &mut lent.rooms[..lengths.rooms],
            &mut lent.rents[..lengths.rents],
            &mut lent.work[..lengths.work],
            &mut lent.sheet[..lengths.sheet],
        );
        match outcome {
            Ok(shared) => {
                self.tally.accept();
                let totals = [
                    shared.looks,
                    shared.joint.cast_unsigned(),
                    shared.least.cast_unsigned(),
                ];
                self.tally.sum = totals.into_iter().fold(self.tally.sum, mix);
                let sheet = lent.sheet[..sheet_len(shared.people)].to_vec(self.heap)?;
                Ok(Some(sheet))
            }
            Err(refusal) => {
                count(&mut self.tally.changed, lent != self.unused);
                let fault = Fault {
                    number: refusal.number(),
                    place: refusal.place() as u128,
                };
                self.refuse(&refusal, fault, group, &[])?;
                Ok(None)
            }
        }
    }

    // A sound group, shared and checked, and its sheet checked again with one byte, all bytes, the rows or the length changed.
    fn try_sound(&mut self, group: &[u8], people: u8) -> Result<(), AllocError> {
        let Some(mut sheet) = self.try_group(group, ALL)? else {
            return Ok(());
        };
        self.try_sheet(group, sheet.as_slice())?;
        // As a die: the draw picks what is damaged.
        match self.seed.draw(7) {
            0 => separate(sheet.as_mut_slice(), people),
            1 => self.seed.scramble(sheet.as_mut_slice()),
            2 => sheet.push(MARK)?,
            3 => {
                let _ = sheet.pop();
            }
            _ => self.seed.damage(sheet.as_mut_slice()),
        }
        self.try_sheet(group, sheet.as_slice())
    }

    // A group with one byte changed, cut, longer, on a slice that is too short, or of any bytes.
    fn try_damaged(&mut self, mut group: Vec<u8>, people: u8) -> Result<(), AllocError>
        requires some { 0 < people }
        requires few { people ≤ MOST_PEOPLE }
    {
        let mut lengths = ALL;
        // As a die: the draw picks what is damaged.
        match self.seed.draw(7) {
            0 => group.push(MARK)?,
            1 => {
                let keep = self.seed.draw_len(group.len());
                group.truncate(keep);
            }
            2 => lengths = Lengths::too_short(&mut self.seed, people),
            3 => {
                group.truncate(21);
                self.seed.scramble(group.as_mut_slice());
                if let Some(n) = group.first_mut() {
                    *n = 2;
                }
            }
            _ => self.seed.damage(group.as_mut_slice()),
        }
        let _ = self.try_group(group.as_slice(), lengths)?;
        Ok(())
    }

    // Group number k. Every second one is sound, with its sheets; every sixty-fourth is one of 24.
    fn try_number(&mut self, k: u64) -> Result<(), AllocError> {
        let people = if k % 64 == 63 {
            24
        } else {
            (1 + self.seed.draw(5)) as u8
        };
        let kind = KINDS[(k / 2 % 4) as usize];
        let group = kind
            .house(self.heap, &mut self.seed, people)?
            .bytes(self.heap)?;
        if k % 2 == 0 {
            self.try_sound(group.as_slice(), people)
        } else {
            self.try_damaged(group, people)
        }
    }
}

// `count` groups.
pub(super) fn load_all(rt: &HostRuntime, count: u64) -> io::Result<()> {
    let mut trial = Trial {
        heap: rt.alloc(),
        seed: Seed(2),
        unused: Lent::filled(MARK),
        tally: Tally::default(),
    };
    for k in 0..count {
        trial.try_number(k)?;
    }
    trial.tally.tell(rt, count)
}

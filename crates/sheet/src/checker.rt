// Checking a group's sheet, whoever wrote it.
ghost use Rattle.std.specs.Prelude.{◌≡◌};
ghost use Rattle.rooms.specs.View.{house};
ghost use Rattle.rents.specs.Shown.{Whole};
ghost use Rattle.sheet.specs.Accepted.{AcceptedFair, AcceptedMeans, AcceptedPayable, AcceptedShown, FairAccepted, Payable, RefusedFalse, ShownAccepted};
ghost use Rattle.sheet.specs.Entries.{claimed, entered};
ghost use Rattle.sheet.specs.Judge.{judge, judge_sheet};
ghost use Rattle.sheet.specs.Verdicts.{OneVerdict, Plain, meaning};
ghost use Rattle.sheet.specs.declared.verdict.Verdict.TheVariants.{Accepted};

use super::entries::{Entries, read_entries};
use super::statement::{Sharing, Statement, Terms};
use super::verdict::Verdict;
use super::write::sheet_len;
use rooms::Group;

// Whether the sheet shows the fairest share of the group's house, or the first fault.
pub fn check(group: &[u8], sheet: &[u8]) -> Verdict
    ensures judged { meaning result ≡ judge group.now sheet.now }
    ensures plain { Plain result }
    ensures accepted { result ≡ Accepted → AcceptedMeans group.now sheet.now }
    ensures payable { result ≡ Accepted → Payable group.now sheet.now }
{
    let group = match Group::try_from(group) {
        Ok(group) => group,
        Err(refusal) => return Verdict::Group(refusal),
    };
    let n = group.count();
    if sheet.len() != sheet_len(n) {
        return Verdict::Length(sheet.len());
    }
    check_entries(group, &read_entries(sheet, n))
}

// The tests in their order.
fn check_entries(group: Group, entries: &Entries) -> Verdict
    requires { Whole (house group) (claimed (house group) entries.now) }
    ensures judged { meaning result ≡ judge_sheet (house group.entry) (entered (house group.entry).n entries.now) }
    ensures plain { Plain result }
{
    let stated = Statement { group, entries };
    if let Some(person) = stated.first_room() {
        return Verdict::Rooms(person);
    }
    if let Some((person, room)) = stated.first_numbers() {
        return Verdict::Numbers(person, room);
    }
    let sharing = Sharing { stated };
    if let Some(person) = sharing.first_length() {
        return Verdict::Rows(person);
    }
    if let Some(person) = stated.first_circle() {
        return Verdict::Rows(person);
    }
    if let Some((from, to)) = sharing.first_ways() {
        return Verdict::Way(from, to);
    }
    let terms = Terms::reckon(sharing);
    match terms.first_price() {
        None => Verdict::Accepted,
        Some(room) if terms.rent_off(room) => Verdict::Rent(room),
        Some(room) => Verdict::Cents(room),
    }
}

// What verdicts mean: what is accepted is shown with the right cents, and so is the fairest and can be paid; whatever is so is accepted; each refusal
// names what is false; and a number and a place are those of one verdict alone.
pub fn verdicts_stand()
    ensures accepted { AcceptedShown }
    ensures shown { ShownAccepted }
    ensures fair { AcceptedFair }
    ensures payable { AcceptedPayable }
    ensures all { FairAccepted }
    ensures refused { RefusedFalse }
    ensures one { OneVerdict }
{}

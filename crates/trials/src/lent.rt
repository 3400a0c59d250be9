// What a share is lent.
ghost use Rattle.std.specs.Prelude.{◌≤◌, IfOk};
ghost use Rattle.rooms.specs.Format.{most_people};

use rooms::Refusal;
use rooms::group::MOST_PEOPLE;
use sheet::share;
use sheet::sharing::{MOST_RENTS, MOST_SHEET, MOST_WORK, Shared};

// Slices that are long enough for every group.
#[derive(Clone, Copy, PartialEq)]
pub(super) struct Lent {
    pub(super) rooms: [u32; MOST_PEOPLE],
    pub(super) rents: [u64; MOST_RENTS],
    pub(super) work: [u64; MOST_WORK],
    pub(super) sheet: [u8; MOST_SHEET],
}

impl Lent {
    pub(super) fn filled(with: u8) -> Lent {
        Lent {
            rooms: [u32::from(with); MOST_PEOPLE],
            rents: [u64::from(with); MOST_RENTS],
            work: [u64::from(with); MOST_WORK],
            sheet: [with; MOST_SHEET],
        }
    }

    pub(super) fn share(&mut self, group: &[u8]) -> Result<Shared, Refusal>
        ensures { IfOk result (λ shared. shared.people ≤ most_people) }
    {
        share(
            group,
            &mut self.rooms,
            &mut self.rents,
            &mut self.work,
            &mut self.sheet,
        )
    }
}

// Columns of a sheet: numbers of one byte or of eight, each a step after the last.
ghost use Rattle.std.specs.Prelude.{◌≡◌, ℕ, ◌+◌, ◌-◌, ◌*◌, ◌<◌, ◌≤◌, ◌++◌, List, length, replicate, pos, slice_index, slice_index_or};
ghost use Rattle.rooms.specs.Format.{most_people};
ghost use Rattle.sheet.specs.Format.{signed_at, column_of};

use rooms::group::MOST_PEOPLE;

// What stands in a column: a byte, or a signed number of eight.
pub trait Entry: Copy + Drop {
    ghost width: { ℕ };

    const NOTHING: Self;

    ghost NOTHING: { Self };

    ghost stands: { List ℕ → ℕ → Self };

    fn read(sheet: &[u8], at: usize) -> Self
        requires { at + width ≤ length sheet.now }
        ensures { result ≡ stands sheet.now at };
}

impl Entry for u8 {
    ghost width = { 1 };

    const NOTHING: u8 = 0;

    ghost NOTHING = { 0 };

    ghost stands = { λ s at. slice_index s at };

    fn read(sheet: &[u8], at: usize) -> u8 {
        sheet[at]
    }
}

impl Entry for i64 {
    ghost width = { 8 };

    const NOTHING: i64 = 0;

    ghost NOTHING = { pos 0 };

    ghost stands = { signed_at };

    fn read(sheet: &[u8], at: usize) -> i64 {
        whole::read(sheet, at)
    }
}

// The n entries from `at` on, and nothing past them.
pub fn column<E: Entry>(sheet: &[u8], at: usize, step: usize, n: usize) -> [E; MOST_PEOPLE]
    requires few { n ≤ most_people }
    requires fits { (k : ℕ) → k < n → at + step * k + E.width ≤ length sheet.now }
    ensures whole { result ≡ column_of E.stands sheet.now at step n ++ replicate (most_people - n) E.NOTHING }
    ensures each { (k : ℕ) → slice_index_or result k E.NOTHING ≡ slice_index_or (column_of E.stands sheet.now at step n) k E.NOTHING }
    ensures within { (k : ℕ) (d : _) → k < n → slice_index_or result k d ≡ slice_index_or (column_of E.stands sheet.now at step n) k d }
{
    let mut entries = [E::NOTHING; MOST_PEOPLE];
    for (k, entry) in entries[..n].iter_mut().enumerate() {
        *entry = E::read(sheet, at + step * k);
    }
    entries
}

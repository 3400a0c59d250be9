// What a sheet says, column by column.
ghost use Rattle.std.specs.Prelude.{◌≡◌, ◌≤◌, length};
ghost use Rattle.rooms.specs.Format.{most_people};
ghost use Rattle.sheet.specs.Format.{sheet_length, sheet_of};
ghost use Rattle.sheet.specs.Entries.{entered};

use super::columns::column;
use rooms::group::MOST_PEOPLE;

// The columns of a sheet: for each person the room, the person before and the length of the longest row, and a number for the joint worth; for each
// room the rent, its cents, and a number for the joint worth. Nothing past the people.
// Columns, and no array of lines: each test reads whole columns, and so do the definitions; arrays of the most people, with no heap.
#[derive(Clone, Copy)]
pub struct Entries {
    pub room: [u8; MOST_PEOPLE],
    pub before: [u8; MOST_PEOPLE],
    pub d: [i64; MOST_PEOPLE],
    pub rents: [i64; MOST_PEOPLE],
    pub cents: [i64; MOST_PEOPLE],
    pub persons: [i64; MOST_PEOPLE],
    pub rooms: [i64; MOST_PEOPLE],
}

// The entries of a sheet for n people.
pub fn read_entries(sheet: &[u8], n: usize) -> Entries
    requires { (n ≤ most_people) × (length sheet.now ≡ sheet_length n) }
    ensures { entered n result ≡ sheet_of n sheet.now }
{
    Entries {
        room: column(sheet, 0, 10, n),
        before: column(sheet, 1, 10, n),
        d: column(sheet, 2, 10, n),
        rents: column(sheet, 10 * n, 16, n),
        cents: column(sheet, 10 * n + 8, 16, n),
        persons: column(sheet, 26 * n, 8, n),
        rooms: column(sheet, 34 * n, 8, n),
    }
}

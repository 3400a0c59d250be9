// Writing a sheet's bytes, part by part.
ghost use Rattle.std.specs.Prelude.{◌≡◌, ℕ, ◌+◌, ◌*◌, ◌^◌, ◌<◌, ◌≤◌, ◌++◌, length, drop, slice_index};
ghost use Rattle.std.proofs.Math.Seq.{paste};
ghost use Rattle.std.specs.List.{range_with_len, flat_map};
ghost use Rattle.rooms.specs.Format.{most_people};
ghost use Rattle.rooms.specs.House.{room_of};
ghost use Rattle.sheet.specs.Format.{sheet_bytes, sheet_length};
ghost use Rattle.sheet.specs.Write.{handed, number_part, person_part, room_part};
ghost use Rattle.sheet.specs.Roundtrip.{Long, ReadsBack, SameBytes, WritesBack};

use rooms::group::MOST_PEOPLE;
use whole::write;

// How long the sheet of n people is.
pub fn sheet_len(n: usize) -> usize
    requires { n ≤ most_people }
    ensures { result ≡ sheet_length n }
{
    42 * n
}

// What is written on the sheet for n people: their rooms, the persons before and the lengths of the longest rows; of each
// room n times its rent and its cents, as they stand in `rents`; and the numbers for the joint worth.
// No heap in the libraries, so arrays of the most people; n comes without a group.
#[derive(Clone, Copy)]
pub struct Draft<'a> {
    pub n: usize,
    pub rooms: &'a [u32],
    pub before: [u8; MOST_PEOPLE],
    pub d: [u64; MOST_PEOPLE],
    pub rents: &'a [u64],
    pub persons: [u64; MOST_PEOPLE],
    pub prices: [u64; MOST_PEOPLE],
    ghost few: { n ≤ most_people },
    ghost roomy: { (n ≤ length rooms.now) × (n + n ≤ length rents.now) },
    ghost small: { (i : ℕ) → i < n → room_of rooms.now i < 256 },
}

// The sheet, at the front of the slice.
pub fn write_sheet(draft: &Draft, sheet: &mut [u8])
    requires { sheet_length draft.now.n ≤ length sheet.old }
    ensures { sheet.new ≡ sheet_bytes draft.now.n
        (handed draft.now.n draft.now.rooms.now draft.now.before draft.now.d draft.now.rents.now draft.now.persons draft.now.prices)
        ++ drop (sheet_length draft.now.n) sheet.old }
{
    let Draft { n, rents, .. } = *draft;
    write_persons(draft, sheet);
    write_rooms(n, rents, sheet);
    write_numbers(n, draft.persons, 26 * n, sheet);
    write_numbers(n, draft.prices, 34 * n, sheet);
}

// This part and the next two are written by index: a piece that chunks_mut lends leaves nothing known of its bytes.
fn write_persons(draft: &Draft, sheet: &mut [u8])
    requires { 10 * draft.now.n ≤ length sheet.old }
    ensures { sheet.new ≡ paste sheet.old 0 (flat_map (person_part draft.now.rooms.now draft.now.before draft.now.d) (range_with_len 0 draft.now.n)) (10 * draft.now.n) }
{
    for i in 0..draft.n {
        sheet[10 * i] = draft.rooms[i] as u8;
        sheet[10 * i + 1] = draft.before[i];
        write(sheet, 10 * i + 2, draft.d[i]);
    }
}

fn write_rooms(n: usize, rents: &[u64], sheet: &mut [u8])
    requires few { n ≤ most_people }
    requires roomy { (n + n ≤ length rents.now) × (26 * n ≤ length sheet.old) }
    ensures written { sheet.new ≡ paste sheet.old (10 * n) (flat_map (room_part n rents.now) (range_with_len 0 n)) (16 * n) }
    ensures fits { (k : ℕ) → slice_index rents.now k < 2 ^ 64 }
{
    for r in 0..n {
        write(sheet, 10 * n + 16 * r, rents[r]);
        write(sheet, 10 * n + 16 * r + 8, rents[n + r]);
    }
}

fn write_numbers(n: usize, numbers: [u64; MOST_PEOPLE], at: usize, sheet: &mut [u8])
    requires few { n ≤ most_people }
    requires roomy { at + 8 * n ≤ length sheet.old }
    ensures { sheet.new ≡ paste sheet.old at (flat_map (number_part numbers) (range_with_len 0 n)) (8 * n) }
{
    for i in 0..n {
        write(sheet, at + 8 * i, numbers[i]);
    }
}

// Sheets lose nothing: all for n people are as long, what was written is read back, and what is read is written again.
pub fn sheet_stands()
    ensures long { Long }
    ensures same { SameBytes }
    ensures reads { ReadsBack }
    ensures writes { WritesBack }
{}

#[cfg(test)]
mod tests {
    use super::super::columns::*;
    use super::*;
    use whole::Word;

    // Worths 80 70 / 80 20 and rent 100: rooms 1 and 0, nobody before, twice the rents 110 and 90, cents 55 and 45, numbers
    // 70 and 70 for the people, 10 and 0 for the rooms; then two bytes that lie past the sheet.
    const WORKED: &[u8; 86] = b"\
        \x01\xff\0\0\0\0\0\0\0\0\
        \0\xff\0\0\0\0\0\0\0\0\
        \x6e\0\0\0\0\0\0\0\x37\0\0\0\0\0\0\0\
        \x5a\0\0\0\0\0\0\0\x2d\0\0\0\0\0\0\0\
        \x46\0\0\0\0\0\0\0\x46\0\0\0\0\0\0\0\
        \x0a\0\0\0\0\0\0\0\0\0\0\0\0\0\0\0\
        \x07\x07";

    #[test]
    fn worked(rt: HostRuntime) {
        let mut prices = [0; MOST_PEOPLE];
        prices[0] = 10;
        let mut sheet = [7; 86];
        let draft = Draft {
            n: 2,
            rooms: &[1, 0],
            before: [255; MOST_PEOPLE],
            d: [0; MOST_PEOPLE],
            rents: &[110, 90, 55, 45],
            persons: [70; MOST_PEOPLE],
            prices,
        };
        write_sheet(&draft, &mut sheet);
        assert_eq!(rt; sheet, *WORKED);
    }

    // Numbers below nothing, and columns read from what was written.
    #[test]
    fn below_nothing(rt: HostRuntime) {
        let mut sheet = [0; 42];
        let rents = [(-4i64).to_bits(), i64::MIN.to_bits()];
        let draft = Draft {
            n: 1,
            rooms: &[9, 9],
            before: [3; MOST_PEOPLE],
            d: [258; MOST_PEOPLE],
            rents: &rents,
            persons: [1; MOST_PEOPLE],
            prices: [2; MOST_PEOPLE],
        };
        write_sheet(&draft, &mut sheet);
        assert_eq!(rt; column::<u8>(&sheet, 0, 10, 1)[0], 9);
        assert_eq!(rt; column::<u8>(&sheet, 1, 10, 1)[0], 3);
        assert_eq!(rt; column::<i64>(&sheet, 2, 10, 1)[0], 258);
        assert_eq!(rt; column::<i64>(&sheet, 10, 16, 1)[0], -4);
        assert_eq!(rt; column::<i64>(&sheet, 18, 16, 1)[0], -0x8000_0000_0000_0000);
        let numbers = column::<i64>(&sheet, 26, 8, 2);
        assert_eq!(rt; [numbers[0], numbers[1], numbers[2]], [1, 2, 0]);
    }
}

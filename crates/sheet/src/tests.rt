// Right sheets, and damaged ones with their faults.
use super::{check, share};
use rooms::Refusal;
use std::test::Fail;
use whole::write;

// Worths 10 0 / 14 10 and rent 7.
const GROUP: &[u8; 21] = b"\
    \x02\x07\0\0\0\
    \x0a\0\0\0\0\0\0\0\
    \x0e\0\0\0\x0a\0\0\0";

// Rooms 0 and 1, person 0 before person 1, lengths 0 and 4, twice the rents 11 and 3, cents 6 and 1, numbers 0 and 4, 10 and 6.
const SHEET: &[u8; 84] = b"\
    \0\xff\0\0\0\0\0\0\0\0\
    \x01\0\x04\0\0\0\0\0\0\0\
    \x0b\0\0\0\0\0\0\0\x06\0\0\0\0\0\0\0\
    \x03\0\0\0\0\0\0\0\x01\0\0\0\0\0\0\0\
    \0\0\0\0\0\0\0\0\x04\0\0\0\0\0\0\0\
    \x0a\0\0\0\0\0\0\0\x06\0\0\0\0\0\0\0";

// Worths 10 10 / 10 10 and rent 15.
const EQUAL_GROUP: &[u8; 21] = b"\
    \x02\x0f\0\0\0\
    \x0a\0\0\0\x0a\0\0\0\
    \x0a\0\0\0\x0a\0\0\0";

// Rooms 0 and 1, nobody before, twice the rents 15 and 15, cents 8 and 7.
const EQUAL_SHEET: &[u8; 84] = b"\
    \0\xff\0\0\0\0\0\0\0\0\
    \x01\xff\0\0\0\0\0\0\0\0\
    \x0f\0\0\0\0\0\0\0\x08\0\0\0\0\0\0\0\
    \x0f\0\0\0\0\0\0\0\x07\0\0\0\0\0\0\0\
    \x0a\0\0\0\0\0\0\0\x0a\0\0\0\0\0\0\0\
    \0\0\0\0\0\0\0\0\0\0\0\0\0\0\0\0";

// Worths 80 70 / 80 20 and rent 100.
const WORKED_GROUP: &[u8; 21] = b"\
    \x02\x64\0\0\0\
    \x50\0\0\0\x46\0\0\0\
    \x50\0\0\0\x14\0\0\0";

// Rooms 1 and 0, nobody before, twice the rents 110 and 90, cents 55 and 45, numbers 70 and 70, 10 and 0.
const WORKED_SHEET: &[u8; 84] = b"\
    \x01\xff\0\0\0\0\0\0\0\0\
    \0\xff\0\0\0\0\0\0\0\0\
    \x6e\0\0\0\0\0\0\0\x37\0\0\0\0\0\0\0\
    \x5a\0\0\0\0\0\0\0\x2d\0\0\0\0\0\0\0\
    \x46\0\0\0\0\0\0\0\x46\0\0\0\0\0\0\0\
    \x0a\0\0\0\0\0\0\0\0\0\0\0\0\0\0\0";

// The fault of a sheet with another number at a place; (0, 0) where it is accepted.
fn with_number(at: usize, x: i64) -> (u32, u128) {
    let mut sheet = *SHEET;
    if at <= 76 {
        write(&mut sheet, at, x);
    }
    fault(GROUP, &sheet)
}

fn with_bytes(group: &[u8], sheet: &[u8; 84], i: usize, x: u8, k: usize, y: u8) -> (u32, u128) {
    let mut sheet = *sheet;
    if i < 84 && k < 84 {
        sheet[i] = x;
        sheet[k] = y;
    }
    fault(group, &sheet)
}

fn fault(group: &[u8], sheet: &[u8]) -> (u32, u128) {
    check(group, sheet).fault().unwrap_or((0, 0))
}

// A place, the number that is put there, and the fault.
const NUMBERS: [(usize, i64, u32, u128); 30] = [
    (2, i64::MIN, 9, 0),
    (2, i64::MAX, 9, 0),
    (2, 1, 9, 0),
    (12, i64::MIN, 9, 1),
    (12, i64::MAX, 9, 1),
    (12, 5, 9, 1),
    (20, i64::MIN, 11, 0),
    (20, i64::MAX, 11, 0),
    (20, 10, 11, 0),
    (28, i64::MIN, 11, 32),
    (28, i64::MAX, 11, 32),
    (28, 5, 11, 32),
    (36, i64::MIN, 11, 1),
    (36, 4, 11, 1),
    (44, i64::MAX, 11, 33),
    (44, 2, 11, 33),
    (52, i64::MIN, 8, 0),
    (52, i64::MAX, 8, 0),
    (52, -1, 8, 0),
    (52, 1, 8, 0),
    (60, i64::MIN, 8, 32),
    (60, i64::MAX, 8, 33),
    (60, 3, 8, 32),
    (68, i64::MIN, 8, 0),
    (68, i64::MAX, 8, 0),
    (68, 9, 8, 0),
    (76, i64::MIN, 8, 1),
    (76, i64::MAX, 8, 33),
    (76, -1, 8, 1),
    (76, 5, 8, 33),
];

#[test]
fn other_numbers(rt: HostRuntime) {
    for (at, x, number, place) in NUMBERS {
        assert_eq!(rt; with_number(at, x), (number, place));
    }
}

// A place, the byte that is put there, and the fault.
const BYTES: [(usize, u8, u32, u128); 10] = [
    (0, 2, 7, 0),
    (0, 1, 7, 1),
    (10, 0, 7, 1),
    (10, 255, 7, 1),
    (1, 0, 9, 0),
    (1, 1, 9, 0),
    (1, 2, 9, 0),
    (11, 255, 9, 1),
    (11, 1, 9, 1),
    (11, 254, 9, 1),
];

#[test]
fn other_bytes(rt: HostRuntime) {
    for (at, x, number, place) in BYTES {
        assert_eq!(rt; with_bytes(GROUP, SHEET, at, x, at, x), (number, place));
    }
    assert_eq!(rt;
        with_bytes(GROUP, SHEET, 11, 255, 12, 0),
        (10, 1),
        "a way that leads to more"
    );
    assert_eq!(rt;
        with_bytes(EQUAL_GROUP, EQUAL_SHEET, 1, 1, 11, 0),
        (9, 0),
        "a circle of two"
    );
    assert_eq!(rt;
        with_bytes(EQUAL_GROUP, EQUAL_SHEET, 28, 7, 44, 8),
        (11, 32),
        "cents that still add up"
    );
}

#[test]
fn right_sheets(rt: HostRuntime) -> Result<(), Fail> {
    assert_eq!(rt; fault(WORKED_GROUP, WORKED_SHEET), (0, 0));
    assert_eq!(rt; fault(GROUP, SHEET), (0, 0));
    assert_eq!(rt; fault(EQUAL_GROUP, EQUAL_SHEET), (0, 0));
    assert_eq!(rt;
        with_bytes(EQUAL_GROUP, EQUAL_SHEET, 1, 1, 1, 1),
        (0, 0),
        "another row, as long"
    );
    assert_eq!(rt; fault(&[], SHEET), (1, 0));
    let sheet = *SHEET;
    assert_eq!(rt; fault(GROUP, &sheet[0..83]), (6, 83));
    let text = format!(in rt.alloc(); "{}", check(GROUP, SHEET))?;
    assert_eq!(rt; text.as_str(), "accepted");
    let text = format!(in rt.alloc(); "{}", check(GROUP, EQUAL_SHEET))?;
    assert_eq!(rt; text.as_str(), "refused 8 at 32");
    Ok(())
}

// Which slice share says is too short, where slices of these lengths are lent and none has changed; 9 otherwise.
fn too_short(r: usize, q: usize, w: usize, s: usize) -> usize {
    let (mut rooms, mut rents, mut work, mut sheet) = ([9; 3], [9; 5], [9; 19], [9; 85]);
    if r > 3 || q > 5 || w > 19 || s > 85 {
        return 9;
    }
    match share(
        WORKED_GROUP,
        &mut rooms[0..r],
        &mut rents[0..q],
        &mut work[0..w],
        &mut sheet[0..s],
    ) {
        Err(Refusal::Slice(which))
            if rooms == [9; 3] && rents == [9; 5] && work == [9; 19] && sheet == [9; 85] => which,
        _ => 9,
    }
}

// Each slice one too short, and several at once: the first is named, and a refusal changes nothing.
#[test]
fn short_slices(rt: HostRuntime) {
    assert_eq!(rt; too_short(1, 4, 18, 84), 0);
    assert_eq!(rt; too_short(2, 3, 18, 84), 1);
    assert_eq!(rt; too_short(2, 4, 17, 84), 2);
    assert_eq!(rt; too_short(2, 4, 18, 83), 3);
    assert_eq!(rt; too_short(2, 0, 0, 84), 1);
}

// What a share leaves in longer slices.
#[test]
fn longer_slices(rt: HostRuntime) -> Result<(), Fail> {
    let (mut rooms, mut rents, mut work, mut sheet) = ([9; 3], [9; 5], [9; 19], [9; 85]);
    match share(WORKED_GROUP, &mut rooms, &mut rents, &mut work, &mut sheet) {
        Ok(shared) => {
            assert_eq!(rt; shared.looks, 6);
            assert_eq!(rt; rooms, [1, 0, 9]);
            assert_eq!(rt; rents, [110, 90, 55, 45, 9]);
            assert_eq!(rt; [work[0], work[17], work[18]], [0, 0, 9]);
            assert_eq!(rt; [sheet[0], sheet[20], sheet[83], sheet[84]], [1, 110, 0, 9]);
            Ok(())
        }
        Err(_) => Err(Fail::new("refused")),
    }
}

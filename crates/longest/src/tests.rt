// What the longest rows should be, on houses worked by hand.
use super::*;
use assignment::assign;
use std::process::Abort;
use std::test::Fail;

// What is found for the best sharing of a group, with work that is clean after.
fn found_in(rt: &impl Abort, bytes: &[u8]) -> Result<LongestRows, Fail> {
    Group::validate(bytes)?;
    let group = Group::new(bytes);
    let mut rooms = [0; MOST_PEOPLE];
    let mut work = [7; 744];
    let best = assign(&group, &mut rooms, &mut work);
    let found = longest_rows(&group, &rooms, best.persons, best.rooms, &mut work);
    assert!(rt; work[0] == 0);
    Ok(found)
}

fn agrees(rt: &impl Abort, found: LongestRows, d: [u64; 4], before: [u8; 4], rounds: usize) {
    for i in 0..4 {
        assert!(rt; found.d[i] == d[i]);
        assert!(rt; found.before[i] == before[i]);
    }
    assert!(rt; found.rounds == rounds);
}

// The house of three that was worked by hand: person 1 sees 5000 more in somebody's room.
#[test]
fn worked_house(rt: HostRuntime) -> Result<(), Fail> {
    let bytes =
        b"\x03\x90\x5f\x01\0\x60\xea\0\0\x30\x75\0\0\x20\x4e\0\0\x50\xc3\0\0\x40\x9c\0\0\x30\x75\0\0\xd8\xd6\0\0\xb8\x88\0\0\xa8\x61\0\0";
    agrees(
        &rt,
        found_in(&rt, bytes)?,
        [0, 5000, 0, 0],
        [NOBODY, 2, NOBODY, NOBODY],
        1,
    );
    Ok(())
}

// All worths are 10, so every way is nothing, and everybody stands alone.
#[test]
fn equal_worths(rt: HostRuntime) -> Result<(), Fail> {
    let bytes =
        b"\x03\0\0\0\0\x0a\0\0\0\x0a\0\0\0\x0a\0\0\0\x0a\0\0\0\x0a\0\0\0\x0a\0\0\0\x0a\0\0\0\x0a\0\0\0\x0a\0\0\0";
    agrees(
        &rt,
        found_in(&rt, bytes)?,
        [0, 0, 0, 0],
        [NOBODY, NOBODY, NOBODY, NOBODY],
        0,
    );
    Ok(())
}

// The longest row holds everybody, and each round lengthens one more: 10 0 0 0 / 11 11 0 0 / 0 12 12 0 / 0 0 13 13.
#[test]
fn whole_row(rt: HostRuntime) -> Result<(), Fail> {
    let bytes =
        b"\x04\0\0\0\0\x0a\0\0\0\0\0\0\0\0\0\0\0\0\0\0\0\x0b\0\0\0\x0b\0\0\0\0\0\0\0\0\0\0\0\0\0\0\0\x0c\0\0\0\x0c\0\0\0\0\0\0\0\0\0\0\0\0\0\0\0\x0d\0\0\0\x0d\0\0\0";
    agrees(
        &rt,
        found_in(&rt, bytes)?,
        [0, 1, 2, 3],
        [NOBODY, 0, 1, 2],
        3,
    );
    Ok(())
}

// Two see 10 in every room and two see 12: every row around has the length nothing, and going back still ends.
#[test]
fn circles(rt: HostRuntime) -> Result<(), Fail> {
    let bytes =
        b"\x04\0\0\0\0\x0a\0\0\0\x0a\0\0\0\x0a\0\0\0\x0a\0\0\0\x0a\0\0\0\x0a\0\0\0\x0a\0\0\0\x0a\0\0\0\x0c\0\0\0\x0c\0\0\0\x0c\0\0\0\x0c\0\0\0\x0c\0\0\0\x0c\0\0\0\x0c\0\0\0\x0c\0\0\0";
    agrees(
        &rt,
        found_in(&rt, bytes)?,
        [0, 0, 2, 2],
        [NOBODY, NOBODY, 0, 0],
        2,
    );
    Ok(())
}

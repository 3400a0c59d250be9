// Houses whose best sharing is known.
ghost use Rattle.std.specs.Prelude.{◌≤◌, length};

use super::assign;
use rooms::Group;
use std::process::Abort;
use std::test::Fail;

// The bytes of n people with these worths, person by person; with no rent, and 0 past their end.
fn written(n: u8, worths: &[u32]) -> [u8; 2309]
    requires { length worths.now ≤ 576 }
{
    let mut bytes = [0; 2309];
    bytes[0] = n;
    for (k, worth) in worths.iter().enumerate() {
        bytes[5 + 4 * k..9 + 4 * k].copy_from_slice(&worth.to_le_bytes());
    }
    bytes
}

// Whether the rooms found are these, after so many looks, with the slices as they should be left.
fn found(
    rt: &impl Abort,
    house: &'static str,
    n: u8,
    worths: &[u32],
    wanted: &[u32],
    looks: u64,
) -> Result<(), Fail> {
    assert!(rt; worths.len() <= 576);
    let all = written(n, worths);
    let bytes = &all[0..5 + 4 * worths.len()];
    match Group::validate(bytes) {
        Ok(()) => {
            let group = Group::new(bytes);
            let mut rooms = [77; 25];
            let mut work = [88; 745];
            let best = assign(&group, &mut rooms, &mut work);
            assert_eq!(rt; &rooms[0..group.count()], wanted, "{house}");
            assert_eq!(rt; best.looks, looks, "{house}");
            assert_eq!(rt; (rooms[24], work[0], work[744]), (77, 0, 88), "{house}");
            Ok(())
        }
        Err(_) => Err(Fail::new("refused")),
    }
}

#[test]
fn known_houses(rt: HostRuntime) -> Result<(), Fail> {
    found(
        &rt,
        "three rooms in one order",
        3,
        &[
            60000, 30000, 20000, 50000, 40000, 30000, 55000, 35000, 25000,
        ],
        &[0, 1, 2],
        18,
    )?;
    found(&rt, "equal worths", 2, &[10, 10, 10, 10], &[0, 1], 6)?;
    found(&rt, "a room each", 2, &[100, 0, 0, 100], &[0, 1], 4)?;
    found(&rt, "rooms exchanged", 2, &[80, 70, 80, 20], &[1, 0], 6)?;
    found(&rt, "one person", 1, &[5], &[0], 1)?;
    found(
        &rt,
        "two of one mind",
        3,
        &[50, 10, 0, 50, 10, 0, 0, 0, 0],
        &[0, 1, 2],
        18,
    )
}

#[test]
fn edges(rt: HostRuntime) -> Result<(), Fail> {
    found(&rt, "worth nothing", 1, &[0], &[0], 1)?;
    found(&rt, "all worth nothing", 4, &[0; 16], &[0, 1, 2, 3], 40)?;
    found(
        &rt,
        "all worth the most",
        4,
        &[1000000; 16],
        &[0, 1, 2, 3],
        40,
    )?;
    found(
        &rt,
        "each taking the best room that is left is worth 11 of 18",
        3,
        &[10, 9, 1, 9, 1, 0, 8, 7, 0],
        &[1, 0, 2],
        18,
    )?;
    found(
        &rt,
        "rooms handed on",
        4,
        &[9, 8, 0, 0, 9, 0, 8, 0, 9, 0, 0, 8, 9, 8, 8, 8],
        &[1, 2, 0, 3],
        36,
    )
}

#[test]
fn the_most_people(rt: HostRuntime) -> Result<(), Fail> {
    let all = [
        0, 1, 2, 3, 4, 5, 6, 7, 8, 9, 10, 11, 12, 13, 14, 15, 16, 17, 18, 19, 20, 21, 22, 23,
    ];
    found(&rt, "the most people", 24, &[3; 576], &all, 7200)
}

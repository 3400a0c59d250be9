// Rents over n and their cents, with a number past them that is kept.
use super::write_cents;
use std::test::Fail;

#[test]
fn above_nothing(rt: HostRuntime) -> Result<(), Fail> {
    let mut halves = [15, 15, 1, 2, 3];
    write_cents(2, 15, &mut halves);
    assert_eq!(rt; halves, [15, 15, 8, 7, 3]);
    let mut even = [110, 90, 1, 2];
    write_cents(2, 100, &mut even);
    assert_eq!(rt; even, [110, 90, 55, 45]);
    let mut thirds = [11, 11, 11, 1, 2, 3, 4];
    write_cents(3, 11, &mut thirds);
    assert_eq!(rt;
        thirds,
        [11, 11, 11, 4, 4, 3, 4],
        "a rent that 3 does not divide"
    );
    let mut alone = [9, 1];
    write_cents(1, 9, &mut alone);
    assert_eq!(rt; alone, [9, 9]);
    Ok(())
}

#[test]
fn below_nothing(rt: HostRuntime) -> Result<(), Fail> {
    // −7 and 17 over 2: a closet whose tenant is paid.
    let mut closet = [0xffff_ffff_ffff_fff9, 17, 0, 0];
    write_cents(2, 5, &mut closet);
    assert_eq!(rt;
        closet,
        [0xffff_ffff_ffff_fff9, 17, 0xffff_ffff_ffff_fffd, 8],
        "−3 and 8"
    );
    // −5 and 5 over 2.
    let mut free = [0xffff_ffff_ffff_fffb, 5, 0, 0];
    write_cents(2, 0, &mut free);
    assert_eq!(rt;
        free,
        [0xffff_ffff_ffff_fffb, 5, 0xffff_ffff_ffff_fffe, 2],
        "−2 and 2, of a rent of 0"
    );
    // −19 over 24 for the closet of a house of 24, and 29 for each other room.
    let mut many = [29; 48];
    many[0] = 0xffff_ffff_ffff_ffed;
    write_cents(24, 27, &mut many);
    assert_eq!(rt;
        [many[1], many[24], many[25], many[28], many[29], many[47]],
        [29, 0, 2, 2, 1, 1]
    );
    Ok(())
}

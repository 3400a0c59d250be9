// Groups at the edges of what is taken.
use super::Group;
use std::test::Fail;

// The refusal's number and place; (0, 0) where the bytes are taken.
fn answer(bytes: &[u8]) -> (u32, usize) {
    match Group::validate(bytes) {
        Ok(()) => (0, 0),
        Err(e) => (e.number(), e.place()),
    }
}

#[test]
fn people_and_length(rt: HostRuntime) {
    assert_eq!(rt; answer(&[]), (1, 0));
    assert_eq!(rt; answer(&[0]), (2, 0));
    assert_eq!(rt; answer(&[25, 1, 2]), (2, 0));
    assert_eq!(rt; answer(&[24]), (1, 1));
    assert_eq!(rt;
        answer(&[1, 255, 255, 255, 255]),
        (1, 5),
        "a bad rent in bytes that are too short"
    );
    assert_eq!(rt; answer(&[1, 0, 0, 0, 0, 0, 0, 0]), (1, 8));
    assert_eq!(rt; answer(&[1, 0, 0, 0, 0, 0, 0, 0, 0]), (0, 0));
    assert_eq!(rt; answer(&[1, 0, 0, 0, 0, 0, 0, 0, 0, 7, 7]), (1, 9));
}

#[test]
fn rents_and_worths(rt: HostRuntime) {
    assert_eq!(rt;
        answer(&[1, 0x00, 0x36, 0x6e, 0x01, 0, 0, 0, 0]),
        (0, 0),
        "24,000,000"
    );
    assert_eq!(rt;
        answer(&[1, 0x01, 0x36, 0x6e, 0x01, 255, 255, 255, 255]),
        (3, 1),
        "one above"
    );
    assert_eq!(rt;
        answer(&[1, 0, 0, 0, 0, 0x40, 0x42, 0x0f, 0x00]),
        (0, 0),
        "1,000,000"
    );
    assert_eq!(rt;
        answer(&[1, 0, 0, 0, 0, 0x41, 0x42, 0x0f, 0x00]),
        (4, 5),
        "one above"
    );
    assert_eq!(rt;
        answer(&[
            2, 0, 0, 0, 0, 1, 0, 0, 0, 0, 0, 0, 1, 0, 0, 0, 1, 1, 0, 0, 0,
        ]),
        (4, 9),
        "the first of two"
    );
}

#[test]
fn the_most_people(rt: HostRuntime) {
    let mut full = [0u8; 2310];
    full[0] = 24;
    assert_eq!(rt; answer(&full[0..2308]), (1, 2308));
    assert_eq!(rt; answer(&full[0..2309]), (0, 0));
    assert_eq!(rt; answer(&full), (1, 2309));
    full[2308] = 1;
    assert_eq!(rt; answer(&full[0..2309]), (4, 2305), "the last worth");
}

#[test]
fn rows(rt: HostRuntime) -> Result<(), Fail> {
    let bytes = [
        2, 100, 0, 0, 0, 80, 0, 0, 0, 70, 1, 0, 0, 80, 0, 0, 0, 20, 0, 0, 0,
    ];
    match Group::validate(&bytes) {
        Ok(()) => {
            let group = Group::new(&bytes);
            assert_eq!(rt; group.count(), 2);
            assert_eq!(rt; group.rent(), 100);
            let mut first = [0; 24];
            first[0] = 80;
            first[1] = 326;
            assert_eq!(rt; group.row(0), first);
            assert_eq!(rt; group.row(1)[1], 20);
            Ok(())
        }
        Err(_) => Err(Fail::new("refused")),
    }
}

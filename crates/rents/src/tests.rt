// Two worked houses, from their bytes to their rents, with a number past the rents that is kept.
use super::fairest_rents;
use rooms::Group;
use std::test::Fail;

// 80 70 / 80 20 for 100: nobody has a longer row.
#[test]
fn two_rooms(rt: HostRuntime) -> Result<(), Fail> {
    let bytes = [
        2, 100, 0, 0, 0, 80, 0, 0, 0, 70, 0, 0, 0, 80, 0, 0, 0, 20, 0, 0, 0,
    ];
    match Group::validate(&bytes) {
        Ok(()) => {
            let group = Group::new(&bytes);
            let d = [0; 24];
            let mut rents = [0, 0, 7];
            let out = fairest_rents(&group, &[1, 0], d, &mut rents);
            assert_eq!(rt; rents, [110, 90, 7]);
            assert_eq!(rt; out.joint, 150);
            assert_eq!(rt; out.least, 50);
            let [g0, g1, g2, ..] = out.gains;
            assert_eq!(rt; [g0, g1, g2], [50, 50, 0]);
            Ok(())
        }
        Err(_) => Err(Fail::new("refused")),
    }
}

// 60000 30000 20000 / 50000 40000 30000 / 55000 35000 25000 for 90000: person 1 sees 5000 more in the room of person 2.
#[test]
fn three_rooms(rt: HostRuntime) -> Result<(), Fail> {
    let bytes = [
        3, 144, 95, 1, 0, 96, 234, 0, 0, 48, 117, 0, 0, 32, 78, 0, 0, 80, 195, 0, 0, 64, 156, 0, 0,
        48, 117, 0, 0, 216, 214, 0, 0, 184, 136, 0, 0, 168, 97, 0, 0,
    ];
    match Group::validate(&bytes) {
        Ok(()) => {
            let group = Group::new(&bytes);
            let mut d = [0; 24];
            d[1] = 5000;
            let mut rents = [0, 0, 0, 7];
            let out = fairest_rents(&group, &[0, 2, 1], d, &mut rents);
            assert_eq!(rt; rents, [150000, 75000, 45000, 7]);
            assert_eq!(rt; out.joint, 125000);
            assert_eq!(rt; out.least, 30000);
            let [g0, g1, g2, g3, ..] = out.gains;
            assert_eq!(rt; [g0, g1, g2, g3], [30000, 45000, 30000, 0]);
            Ok(())
        }
        Err(_) => Err(Fail::new("refused")),
    }
}

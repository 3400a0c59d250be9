// Whole numbers with bounds: numbers of eight bytes and their bits, and sums, differences, products and quotients of numbers
// of 64 and 128 bits that are exact. Nothing here knows of houses.
#![tactic(auto)]

pub mod bits;
pub mod bytes;
pub mod exact;
pub mod floor;
pub mod wide;

pub use bits::Word;
pub use bytes::{read, write};
pub use exact::Whole;
pub use wide::wide_sum;

#[cfg(test)]
mod tests {
    use super::*;

    // A number, its bits, and the lowest and the highest of its bytes.
    const BITS: [(i64, u64, u8, u8); 6] = [
        (-0x8000_0000_0000_0000, 0x8000_0000_0000_0000, 0, 128),
        (-2, 0xffff_ffff_ffff_fffe, 254, 255),
        (-1, 0xffff_ffff_ffff_ffff, 255, 255),
        (0, 0, 0, 0),
        (1, 1, 1, 0),
        (0x7fff_ffff_ffff_ffff, 0x7fff_ffff_ffff_ffff, 255, 127),
    ];

    #[test]
    fn bits_and_bytes(rt: HostRuntime) {
        for (x, b, low, high) in BITS {
            assert_eq!(rt; x.to_bits(), b);
            assert_eq!(rt; i64::from_bits(b), x);
            let mut bytes = [7; 12];
            write(&mut bytes, 2, x);
            assert_eq!(rt; read::<i64>(&bytes, 2), x);
            assert_eq!(rt; read::<u64>(&bytes, 2), b);
            assert_eq!(rt;
                [bytes[1], bytes[2], bytes[9], bytes[10]],
                [7, low, high, 7]
            );
        }
    }

    // A number, and its quotient and remainder by 24.
    const FLOORS: [(i64, i64, u32); 9] = [
        (-0x8000_0000_0000_0000, -384_307_168_202_282_326, 16),
        (-25, -2, 23),
        (-24, -1, 0),
        (-1, -1, 23),
        (0, 0, 0),
        (1, 0, 1),
        (24, 1, 0),
        (25, 1, 1),
        (0x7fff_ffff_ffff_ffff, 384_307_168_202_282_325, 7),
    ];

    #[test]
    fn floors(rt: HostRuntime) {
        for (a, q, m) in FLOORS {
            assert_eq!(rt; a.floor_div(24), q);
            assert_eq!(rt; a.floor_mod(24), m);
        }
    }

    #[test]
    fn exact(rt: HostRuntime) {
        assert_eq!(rt; (-5i64).plus(3).minus(9), -11);
        assert_eq!(rt; (-1_000_000i64).times(24), -24_000_000);
        let least = wide_sum(-0x8000_0000_0000_0000, -0x8000_0000_0000_0000);
        assert_eq!(rt; least, -0x1_0000_0000_0000_0000);
        assert_eq!(rt; least.minus(i128::from(1i64)), -0x1_0000_0000_0000_0001);
        assert_eq!(rt; least.times(24), -0x18_0000_0000_0000_0000);
        assert_eq!(rt; least.floor_div(24), -768_614_336_404_564_651);
        assert_eq!(rt; least.plus(least), -0x2_0000_0000_0000_0000);
    }
}

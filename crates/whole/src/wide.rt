// Exact numbers of 128 bits, for numbers of 64 bits of which nothing is known: any two have a sum, and a million of them
// are far from the end.
ghost use Rattle.std.specs.Prelude.{◌≡◌, ◌^◌, ◌+ℤ◌};
ghost use Rattle.whole.specs.Bounds.{Within};

use super::exact::Whole;

impl Whole for i128 {
    ghost value = { λ x. x };

    ghost sums = { 125 };

    ghost products = { 100 };

    fn plus(self, other: i128) -> i128 {
        self + other
    }

    fn minus(self, other: i128) -> i128 {
        self - other
    }

    fn times(self, n: u32) -> i128 {
        self * i128::from(n)
    }

    fn floor_div(self, n: u32) -> i128 {
        self.div_euclid(i128::from(n))
    }

    fn floor_mod(self, n: u32) -> u32 {
        self.rem_euclid(i128::from(n)) as u32
    }
}

pub fn wide_sum(a: i64, b: i64) -> i128
    ensures value { result ≡ a +ℤ b }
    ensures within { Within (2 ^ 64) result }
{
    i128::from(a) + i128::from(b)
}

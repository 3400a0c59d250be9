// Sums, differences, products, quotients and remainders whose value is that of the whole numbers: each asks for bounds
// within which nothing wraps, and ensures a bound for what comes next.
ghost use Rattle.std.specs.Prelude.{◌≡◌, ℕ, ◌+◌, ◌^◌, ◌<◌, ◌≤◌, ℤ, pos, ◌+ℤ◌, ◌-ℤ◌, ◌*ℤ◌};
ghost use Rattle.whole.specs.Bounds.{Within, Wider, SumWithin, DifferenceWithin, ProductWithin, TotalWithin};
ghost use Rattle.whole.specs.Floor.{floor, rest, FloorOf};

// Methods, each a line for a type: functions over Add, Sub and Mul would need two laws of each operator instead.
pub trait Whole: Copy {
    // The number that a value is.
    ghost value: { Self → ℤ };

    // Numbers within 2 ^ sums have exact sums and differences; those within 2 ^ products have exact products with a
    // factor of at most 2 ^ 20.
    ghost sums: { ℕ };

    ghost products: { ℕ };

    fn plus(self, other: Self) -> Self
        requires { (Within (2 ^ sums) (value self)) × (Within (2 ^ sums) (value other)) }
        ensures value { value result ≡ value self +ℤ value other }
        ensures within { Within (2 ^ (sums + 1)) (value result) };

    fn minus(self, other: Self) -> Self
        requires { (Within (2 ^ sums) (value self)) × (Within (2 ^ sums) (value other)) }
        ensures value { value result ≡ value self -ℤ value other }
        ensures within { Within (2 ^ (sums + 1)) (value result) };

    fn times(self, n: u32) -> Self
        requires { (Within (2 ^ products) (value self)) × (n ≤ 2 ^ 20) }
        ensures value { value result ≡ value self *ℤ pos n }
        ensures within { Within (2 ^ (products + 20)) (value result) };

    // Quotient and remainder toward lower numbers, also of numbers below nothing.
    fn floor_div(self, n: u32) -> Self
        requires { 0 < n }
        ensures value { value result ≡ floor (value self) n }
        ensures meant { FloorOf (value self) n (value result) }
        ensures within { (b : ℕ) → Within b (value self) → Within b (value result) };

    fn floor_mod(self, n: u32) -> u32
        requires { 0 < n }
        ensures value { result ≡ rest (value self) n }
        ensures below { result < n };
}

// Written out for each width: an impl by a macro of the repository's own would be refused.
impl Whole for i64 {
    ghost value = { λ x. x };

    ghost sums = { 61 };

    ghost products = { 40 };

    fn plus(self, other: i64) -> i64 {
        self + other
    }

    fn minus(self, other: i64) -> i64 {
        self - other
    }

    fn times(self, n: u32) -> i64 {
        self * i64::from(n)
    }

    fn floor_div(self, n: u32) -> i64 {
        self.div_euclid(i64::from(n))
    }

    fn floor_mod(self, n: u32) -> u32 {
        self.rem_euclid(i64::from(n)) as u32
    }
}

// How bounds add up: of two numbers, with a factor, and of a sum of many.
pub fn bounds_stand()
    ensures wider { Wider }
    ensures sums { SumWithin }
    ensures differences { DifferenceWithin }
    ensures products { ProductWithin }
    ensures totals { TotalWithin }
{}

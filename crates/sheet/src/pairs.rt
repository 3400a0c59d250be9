// The first two numbers below n at which a test of two holds.
ghost use Rattle.std.specs.Prelude.{◌≡◌, ℕ, ◌<◌, Bool};
ghost use Rattle.sheet.specs.Pairs.{found_pair};

// The first number below n with which the test holds of some other, and the first such other. The test is asked of numbers below n alone.
pub fn first_pair<F: Fn(usize, usize) -> bool>(n: usize, off: F) -> Option<(usize, usize)>
    requires { (i r : ℕ) → i < n → r < n → F.pre off i r }
    ensures { (t : ℕ → ℕ → Bool) → ((i r : ℕ) (b : Bool) → i < n → r < n → F.post off i r b → b ≡ t i r) → result ≡ found_pair t n }
{
    for i in 0..n {
        let found = (0..n).find(
            |r|
                requires { F.pre off i r.now }
            { off(i, *r) },
        );
        if let Some(r) = found {
            return Some((i, r));
        }
    }
    None
}

// Rents in whole cents: exact fractions rounded toward lower numbers, and one cent more for the rooms of the lowest
// numbers, so that they add up to the whole rent.
#![tactic(auto)]

ghost use Rattle.std.specs.Prelude.{◌≡◌, ◌+◌, ◌^◌, ◌<◌, ◌≤◌, ◌++◌, length, take, drop, ◌+ℤ◌};
ghost use Rattle.rooms.specs.Format.{most_people};
ghost use Rattle.whole.specs.Bounds.{Within};
ghost use Rattle.whole.specs.Floor.{floor};
ghost use Rattle.rents.specs.Answer.{Roundable, bits, held};
ghost use Rattle.cents.specs.Cents.{missing_cents, extra, cents_of, Rounded, CentsRounded, OnlyCents, NearContent};

use whole::{Whole, Word};

// The rents in cents, as bits, into the n places after the first n, which hold n × the rents as bits and are kept. What
// lies past is kept too.
pub fn write_cents(n: usize, rent: u32, rents: &mut [u64])
    requires roundable { Roundable n rent (held n rents.old) }
    requires enough { n + n ≤ length rents.old }
    ensures cents { rents.new ≡ take n rents.old ++ (bits (cents_of n rent (held n rents.old)) ++ drop (n + n) rents.old) }
    ensures held { held n (drop n rents.new) ≡ cents_of n rent (held n rents.old) }
    ensures rounded { Rounded n rent (held n rents.old) (held n (drop n rents.new)) }
{
    let (fractions, cents) = rents.split_at_mut(n);
    let missing = missing_cents(rent, fractions);
    for (r, cent) in cents[..n].iter_mut().enumerate() {
        *cent = in_cents(floor_of(fractions[r], n), r, missing).to_bits();
    }
}

// What holds of rents in cents, whatever the house.
pub fn cents_stand()
    ensures rounded { CentsRounded }
    ensures only { OnlyCents }
    ensures content { NearContent }
{}

// A rent over n, rounded toward lower numbers.
fn floor_of(rent: u64, n: usize) -> i64
    requires { (0 < n) × (n ≤ most_people) }
    ensures { result ≡ floor (⟦<i64 as Word>⟧.of_bits rent) n }
{
    i64::from_bits(rent).floor_div(n as u32)
}

// How many cents are missing when every room pays its rent rounded toward lower numbers. A loop, since the library's sum of signed numbers asks for a
// bound that it has no way to learn.
fn missing_cents(rent: u32, rents: &[u64]) -> i64
    requires { Roundable (length rents.now) rent (held (length rents.now) rents.now) }
    ensures { result ≡ missing_cents (length rents.now) rent (held (length rents.now) rents.now) }
{
    let n = rents.len();
    let mut floors = 0i64;
    for fraction in rents {
        floors = floors.plus(floor_of(*fraction, n));
    }
    i64::from(rent).minus(floors)
}

// One cent more for the first rooms, as many as cents are missing. The checker has the same in 128 bits; `Whole` has neither an order nor constants, and
// two members more for one `if` would be no plainer.
fn in_cents(down: i64, r: usize, missing: i64) -> i64
    requires { (Within (2 ^ 60) down) × (r < 2 ^ 32) }
    ensures { result ≡ down +ℤ extra missing r }
{
    if (r as i64) < missing {
        down.plus(1)
    } else {
        down
    }
}

#[cfg(test)]
mod tests;

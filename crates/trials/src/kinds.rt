// Kinds of houses made from a seed, easy and hard to share.
use super::house::House;
use super::seed::Seed;
use rooms::group::{MOST_RENT, MOST_WORTH};
use std::alloc::{AllocError, Global};
use std::fmt;

#[derive(Clone, Copy)]
pub(super) enum Kind {
    // Any worths.
    Random,
    // Rooms that are worth nearly the same to everybody.
    Near,
    // Everything is worth the same: the most looks that there can be.
    Equal,
    // The later a person, the more a later room is worth to them: everybody hands rooms on, and the longest row holds all.
    Steep,
}

pub(super) const KINDS: [Kind; 4] = [Kind::Random, Kind::Near, Kind::Equal, Kind::Steep];

impl fmt::Display for Kind {
    fn fmt<W: fmt::Write>(&self, f: &mut fmt::Formatter<W>) -> fmt::Result {
        f.write_str(match self {
            Kind::Random => "random",
            Kind::Near => "near",
            Kind::Equal => "equal",
            Kind::Steep => "steep",
        })
    }
}

impl Kind {
    // What room r is worth to person i, where `common` is drawn once for the house.
    fn worth(self, seed: &mut Seed, common: u32, i: u8, r: u8) -> u32 {
        let (i, r) = (u32::from(i), u32::from(r));
        match self {
            Kind::Random => seed.draw(MOST_WORTH),
            Kind::Near => 500_000 + 1000 * r + seed.draw(9),
            Kind::Equal => common,
            Kind::Steep => 1800 * i * r + seed.draw(9),
        }
    }

    // What each of n rooms is worth to person i. Its five parameters have nothing in common.
    fn row(
        self,
        heap: Global,
        seed: &mut Seed,
        common: u32,
        i: u8,
        n: u8,
    ) -> Result<Vec<u32>, AllocError> {
        (0..n).map(|r| self.worth(seed, common, i, r)).collect(heap)
    }

    // A house of n.
    pub(super) fn house(self, heap: Global, seed: &mut Seed, n: u8) -> Result<House, AllocError> {
        let rent = seed.draw(MOST_RENT);
        let common = seed.draw(MOST_WORTH);
        let worth = (0..n)
            .map(|i| self.row(heap, seed, common, i, n))
            .try_collect(heap)?;
        Ok(House { rent, worth })
    }
}

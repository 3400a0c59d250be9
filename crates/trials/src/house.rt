// Houses made from a seed.
ghost use Rattle.std.specs.Prelude.{◌<◌, vec_len};

use super::seed::Seed;
use rooms::group::MOST_RENT;
use std::alloc::{AllocError, Global};

// The most people of a small house.
pub(super) const FEW: usize = 5;

#[derive(Drop)]
pub(super) struct House {
    pub(super) rent: u32,
    // What each room is worth to each person, a row for each of them.
    pub(super) worth: Vec<Vec<u32>>,
    ghost people: { vec_len worth < 256 },
}

// What the worths of a small house are.
#[derive(Clone, Copy, PartialEq)]
enum Worths {
    Tied,
    Middling,
    Large,
    OfOneMind,
    ZerosAndOnes,
}

const WORTHS: [Worths; 5] = [
    Worths::Tied,
    Worths::Middling,
    Worths::Large,
    Worths::OfOneMind,
    Worths::ZerosAndOnes,
];

impl Worths {
    fn most(self) -> u32 {
        match self {
            Worths::Tied => 4,
            Worths::Middling => 100,
            Worths::Large => 1_000_000,
            Worths::OfOneMind => 50,
            Worths::ZerosAndOnes => 1,
        }
    }
}

impl House {
    // Small house number k: its worths are of each kind in turn.
    pub(super) fn small(heap: Global, seed: &mut Seed, k: u32) -> Result<House, AllocError> {
        let worths = WORTHS[(k % 5) as usize];
        let most = worths.most();
        let n = 1 + seed.draw_len(4);
        // All is drawn for five people, whoever of them lives there.
        let mut table = [[0; FEW]; FEW];
        for worth in table.iter_mut().flatten() {
            *worth = seed.draw(most);
        }
        if worths == Worths::OfOneMind {
            table = [table[0]; FEW];
        }
        let worth = table[..n]
            .iter()
            .map(|row| row[..n].to_vec(heap))
            .try_collect(heap)?;
        let rent = seed.draw(most.saturating_mul(6).min(MOST_RENT));
        Ok(House { rent, worth })
    }

    pub(super) fn people(&self) -> u8 {
        self.worth.len() as u8
    }

    // The bytes of a group that lives in it.
    pub(super) fn bytes(&self, heap: Global) -> Result<Vec<u8>, AllocError> {
        let n = usize::from(self.people());
        let mut bytes = Vec::with_capacity(heap, 5 + 4 * (n * n))?;
        bytes.push(self.people())?;
        bytes.extend_from_slice(&self.rent.to_le_bytes())?;
        for worth in self.worth.iter().flatten() {
            bytes.extend_from_slice(&worth.to_le_bytes())?;
        }
        Ok(bytes)
    }
}

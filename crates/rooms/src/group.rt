// A group's bytes: looked at once, then read as a house.
ghost use Rattle.std.specs.Prelude.{◌≡◌, ℕ, ◌+◌, ◌*◌, ◌<◌, ◌≤◌, true, length, MatchResult, slice_index, nat_lt};
ghost use Rattle.rooms.specs.First.{found};
ghost use Rattle.rooms.specs.House.{worth_at};
ghost use Rattle.rooms.specs.Format.{most_people, most_worth, Allowed, word, people, group_length, worth_place, worth_word, house_of, row_of, read, is_taken, taken, refused};
ghost use Rattle.rooms.specs.Refused.{number_of, place_of};
ghost use Rattle.rooms.specs.Roundtrip.{ReadsBack, WritesBack};

use super::refusal::Refusal;

// The bounds of a group.
pub const MOST_PEOPLE: usize = 24;

pub const MOST_RENT: u32 = 24_000_000;

pub const MOST_WORTH: u32 = 1_000_000;

// The bytes before the first worth.
const HEAD: usize = 5;

// A group whose bytes have been looked at.
#[derive(Clone, Copy)]
pub struct Group<'a> {
    bytes: &'a [u8],
    n: usize,
    ghost count: { n ≡ (house_of bytes.now).n },
    ghost few: { n ≤ most_people },
    ghost good: { is_taken (read bytes.now) ≡ true },
}

// The number that the four bytes from `at` on are.
fn word_at(bytes: &[u8], at: usize) -> u32
    requires { at + 4 ≤ length bytes.now }
    ensures { result ≡ word bytes.now at }
{
    u32::from_le_bytes([bytes[at], bytes[at + 1], bytes[at + 2], bytes[at + 3]])
}

// Worth number k of the bytes.
fn worth_word(bytes: &[u8], k: usize) -> u32
    requires { worth_place k + 4 ≤ length bytes.now }
    ensures { result ≡ worth_word bytes.now k }
{
    word_at(bytes, HEAD + 4 * k)
}

// The first worth above the bound.
fn first_large(bytes: &[u8], n: usize) -> Option<usize>
    requires { (n ≤ most_people) × (length bytes.now ≡ group_length n) }
    ensures { result ≡ found (λ k. nat_lt most_worth (worth_word bytes.now k)) (n * n) }
{
    (0..n * n).find(|k| worth_word(bytes, *k) > MOST_WORTH)
}

// The format loses nothing: a house's bytes are read back as that house, and bytes that are taken are just their house's.
pub fn format_stands()
    ensures reads { ReadsBack }
    ensures writes { WritesBack }
{}

impl<'a> Group<'a> {
    ghost use Rattle.rooms.specs.View.{house};

    // Whether the bytes are a group's, or why not.
    pub fn validate(bytes: &[u8]) -> Result<(), Refusal>
        ensures { MatchResult result (λ _. read bytes.now ≡ taken (house_of bytes.now)) (λ e. read bytes.now ≡ refused (number_of e, place_of e)) }
    {
        if bytes.len() == 0 {
            return Err(Refusal::Length(0));
        }
        let n = usize::from(bytes[0]);
        if n == 0 || n > MOST_PEOPLE {
            return Err(Refusal::People);
        }
        let want = HEAD + 4 * (n * n);
        if bytes.len() < want {
            return Err(Refusal::Length(bytes.len()));
        }
        if bytes.len() > want {
            return Err(Refusal::Length(want));
        }
        if word_at(bytes, 1) > MOST_RENT {
            return Err(Refusal::Rent);
        }
        match first_large(bytes, n) {
            Some(k) => Err(Refusal::Worth(HEAD + 4 * k)),
            None => Ok(()),
        }
    }

    // The group of bytes that have been looked at.
    pub fn new(bytes: &'a [u8]) -> Group<'a>
        requires { read bytes.now ≡ taken (house_of bytes.now) }
        ensures { result.bytes.now ≡ bytes.now }
    {
        Group {
            bytes,
            n: usize::from(bytes[0]),
        }
    }

    // How many people, and rooms.
    pub fn count(&self) -> usize
        ensures people { result ≡ (house self.now).n }
        ensures allowed { Allowed (house self.now) }
    {
        self.n
    }

    // The rent of the whole house.
    pub fn rent(&self) -> u32
        ensures { result ≡ (house self.now).rent }
    {
        word_at(self.bytes, 1)
    }

    // What room r is worth to person i.
    pub fn worth(&self, i: usize, r: usize) -> u32
        requires { (i < (house self.now).n) × (r < (house self.now).n) }
        ensures { result ≡ worth_at (house self.now) i r }
    {
        worth_word(self.bytes, i * self.n + r)
    }

    // What each room is worth to person i, and nothing past the n rooms: an array by value, since the libraries take no heap.
    pub fn row(&self, i: usize) -> [u32; MOST_PEOPLE]
        requires { i < (house self.now).n }
        ensures whole { result ≡ row_of (house self.now) i }
        ensures each { (r : ℕ) → slice_index result r ≡ worth_at (house self.now) i r }
    {
        let mut mine = [0; MOST_PEOPLE];
        let worths = &mut mine[0..self.n];
        for (r, worth) in worths.iter_mut().enumerate() {
            *worth = worth_word(self.bytes, i * self.n + r);
        }
        mine
    }
}

impl<'a> TryFrom<&'a [u8]> for Group<'a> {
    ghost use Rattle.rooms.specs.View.{Reads};

    type Error = Refusal;

    ghost try_from_gives = { λ bytes. Reads bytes.now };

    fn try_from(bytes: &'a [u8]) -> Result<Group<'a>, Refusal> {
        Group::validate(bytes)?;
        Ok(Group::new(bytes))
    }
}

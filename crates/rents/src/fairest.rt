// The fairest rents of a best sharing, by the lengths of its longest rows: n × the rent of each room and n × the gain of
// each person, in exact numbers.
ghost use Rattle.std.specs.Prelude.{◌≡◌, ◌≤◌, ◌++◌, length, drop};
ghost use Rattle.rooms.specs.House.{joint as joint_of};
ghost use Rattle.rooms.specs.Rows.{signed};
ghost use Rattle.rooms.specs.View.{house};
ghost use Rattle.rents.specs.Rents.{rents_of, spare as spare_of};
ghost use Rattle.rents.specs.Answer.{Measured, Fair, bits, held, gains_of, RentsSmall, RentsRoundable};

use super::sharing::Sharing;
use rooms::Group;
use rooms::group::MOST_PEOPLE;

// The joint worth; n × the least gain; n × the gain of each person, 0 past the n of them.
// No heap in the libraries, so arrays of the most people.
#[derive(Clone, Copy)]
pub struct Outcome {
    pub joint: i64,
    pub least: i64,
    pub gains: [i64; MOST_PEOPLE],
}

// The fairest rents for a best sharing and the lengths d of its longest rows: n × the rent of each room, as bits, in the
// first n of rents. What lies past is kept.
pub fn fairest_rents(
    group: &Group,
    rooms: &[u32],
    d: [u64; MOST_PEOPLE],
    rents: &mut [u64],
) -> Outcome
    requires measured { Measured (house group.now) rooms.now d }
    requires enough { (house group.now).n ≤ length rents.old }
    ensures rents { rents.new ≡ bits (rents_of (house group.now) rooms.now (signed d)) ++ drop (house group.now).n rents.old }
    ensures joint { result.joint ≡ joint_of (house group.now) rooms.now }
    ensures least { result.least ≡ spare_of (house group.now) rooms.now (signed d) }
    ensures gains { result.gains ≡ gains_of (house group.now) rooms.now (signed d) }
    ensures held { held (house group.now).n rents.new ≡ rents_of (house group.now) rooms.now (signed d) }
    ensures fair { Fair (house group.now) rooms.now (signed d) (held (house group.now).n rents.new) result.least }
{
    let sharing = Sharing::new(group, rooms, d);
    sharing.write_rents(rents);
    Outcome {
        joint: sharing.joint,
        least: sharing.spare,
        gains: sharing.gains(),
    }
}

// How large the numbers are, for any number of people and any bound on the worths; and that all rents leave one remainder
// by n.
pub fn answer_stands()
    ensures small { RentsSmall }
    ensures roundable { RentsRoundable }
{}

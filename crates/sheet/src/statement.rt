// What a sheet states of a house, and what is known of it once its tests are passed one after the other.
ghost use Rattle.rooms.specs.House.{Housed};
ghost use Rattle.sheet.specs.Statement.{claimed_by, house_in};
ghost use Rattle.sheet.specs.Terms.{Reckoned};

use super::entries::Entries;
use rooms::Group;
use rooms::group::MOST_PEOPLE;

// A group's house, and the entries of a sheet for its people.
#[derive(Clone, Copy)]
pub struct Statement<'a> {
    pub group: Group<'a>,
    pub entries: &'a Entries,
}

// A statement by which everybody has a room of their own. Clauses name the whole path to what is stated, which says of which statement.
#[derive(Clone, Copy)]
pub struct Sharing<'a> {
    pub stated: Statement<'a>,
    ghost housed: { Housed (house_in stated) (claimed_by stated).room },
}

// What the rents of a sharing are reckoned from.
#[derive(Clone, Copy)]
pub struct Terms<'a> {
    pub sharing: Sharing<'a>,
    // What is spare when everybody gains the length of their longest row.
    pub surplus: i128,
    // What everybody pays besides, rounded toward lower numbers, and how many cents are then missing.
    pub even: i128,
    pub missing: i128,
    // Who has each room. No heap in the libraries, so an array of the most people.
    pub tenant: [u8; MOST_PEOPLE],
    ghost reckoned: { Reckoned (house_in sharing.stated) (claimed_by sharing.stated) surplus even missing tenant },
}

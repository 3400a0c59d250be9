// The lowest crate: what a house, a sharing of its rooms, rents and a settlement are, in specs/; what holds of all sharings, certificates and rows
// of ways, in theory; and reading a group's bytes.
#![tactic(auto)]

pub mod group;
pub mod refusal;
pub mod theory;

pub use group::Group;
pub use refusal::{Lent, Refusal};

#[cfg(test)]
mod tests;

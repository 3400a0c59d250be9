// The fairest rents: what they are, and that they are the fairest, in a theory with no algorithm in it; and computing them
// in exact whole numbers from a best sharing and the lengths of its longest rows.
#![tactic(auto)]

pub mod fairest;
mod sharing;
pub mod theory;

pub use fairest::{Outcome, fairest_rents};

#[cfg(test)]
mod tests;

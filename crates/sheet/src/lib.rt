// The sheet that shows a share to be the fairest: writing one, checking one, and the two public calls, share and check.
#![tactic(auto)]

pub mod checker;
pub mod columns;
mod entries;
mod faults;
mod pairs;
mod prices;
pub mod report;
mod rows;
pub mod sharing;
mod statement;
pub mod verdict;
pub mod write;

pub use checker::check;
pub use sharing::share;
pub use verdict::Verdict;
pub use write::sheet_len;

#[cfg(test)]
mod tests;

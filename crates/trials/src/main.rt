// Groups made from a seed: compared with the best of all sharings, timed, and damaged.
#![tactic(auto)]

mod compare;
mod house;
mod kinds;
mod lent;
mod load;
mod plain;
mod seed;
mod timing;

use compare::compare_all;
use files::{Failure, ended, misused, with_words};
use load::load_all;
use std::io;
use std::process::ExitCode;
use timing::time_all;

const USAGE: &str = "usage: trials [compare | time COUNT PASSES [N] | load COUNT]";

const HELP: &str = "\
compare: three thousand small houses, beside the best of all sharings and plain rounds over all pairs.
time: COUNT houses of each kind of 2, 6, 12 and 24 people, or of N alone; on standard error what each part took, in
nanoseconds a house, in the fastest of PASSES passes. load: COUNT groups with their sheets, sound and damaged. With
no word: compare.";

// The number that a word is.
fn number(word: Option<&String>) -> Option<u64> {
    word?.as_str().parse::<u64>().ok()
}

// Not by files::helped, which tells of standard output in other words where it fails.
fn help(rt: &HostRuntime) -> io::Result<()> {
    println!(rt; "{USAGE}")?;
    for line in HELP.lines() {
        println!(rt; "{line}")?;
    }
    Ok(())
}

fn run(rt: &HostRuntime, words: &[String]) -> Result<ExitCode, Failure<'static>> {
    match words.first().map_or("compare", |word| word.as_str()) {
        "--help" => help(rt)?,
        "compare" => compare_all(rt)?,
        "time" => {
            let (Some(count), Some(passes)) = (number(words.get(1)), number(words.get(2))) else {
                return misused(rt, USAGE);
            };
            time_all(rt, count, passes, number(words.get(3)))?;
        }
        "load" => {
            let Some(count) = number(words.get(1)) else {
                return misused(rt, USAGE);
            };
            load_all(rt, count)?;
        }
        _ => return misused(rt, USAGE),
    }
    Ok(ExitCode::SUCCESS)
}

fn main(rt: HostRuntime) -> ExitCode {
    with_words(&rt, "trials", |words| ended(&rt, "trials", run(&rt, words)))
}

// Checks a sheet against a group: whether its rents are the fairest, or its first fault.
#![tactic(auto)]

use files::{Failure, ended, helped, misused, printed, read_file, read_group, with_words};
use sheet::{Verdict, check};
use std::process::ExitCode;

const USAGE: &str = "usage: check GROUP SHEET";

const HELP: &str = "\
Prints 'accepted' where the sheet shows the fairest rents of the group; else 'refused NUMBER at PLACE', for the first
fault of the group or of the sheet, and ends with status 1. docs/SHEET.md has the numbers and the places.";

// Tells the verdict, which is what the program ends with.
fn judge<'a>(rt: &HostRuntime, group: &'a str, sheet: &'a str) -> Result<ExitCode, Failure<'a>> {
    let group = read_group(rt, group)?;
    let sheet = read_file(rt, sheet)?;
    let verdict = check(&group, &sheet);
    printed(println!(rt; "{verdict}"))?;
    Ok(match verdict {
        Verdict::Accepted => ExitCode::SUCCESS,
        _ => ExitCode::FAILURE,
    })
}

fn run<'a>(rt: &HostRuntime, words: &'a [String]) -> Result<ExitCode, Failure<'a>> {
    match words {
        [first, ..] if first.as_str() == "--help" => helped(rt, USAGE, HELP),
        [group, sheet] => judge(rt, group, sheet),
        _ => misused(rt, USAGE),
    }
}

fn main(rt: HostRuntime) -> ExitCode {
    with_words(&rt, "check", |words| ended(&rt, "check", run(&rt, words)))
}

// Makes a group's bytes from text: how many people, the rent, and then for each person what each room is worth to them.
#![tactic(auto)]

use files::{ended, helped, misused, read_file, with_words, write_file};
use rooms::Group;
use std::alloc::AllocError;
use std::process::ExitCode;
use std::{fmt, io};
use text::{Fault, Unmade, bytes_of};

mod text;

const USAGE: &str = "usage: group TEXT GROUP";

const HELP: &str = "\
Reads numbers from the file TEXT: how many people (1 to 24), the rent of the house, and then, person by
person, what each room is worth to them, all in cents. Writes the group's bytes to the file GROUP.";

// Why no group was written.
#[derive(Clone, Copy, Debug)]
enum Failure<'a> {
    Files(files::Failure<'a>),
    Wrong { text: &'a str, fault: Fault },
    NotAGroup(&'a str),
}

impl fmt::Display for Failure<'_> {
    fn fmt<W: fmt::Write>(&self, f: &mut fmt::Formatter<W>) -> fmt::Result {
        match self {
            Failure::Files(failure) => write!(f, "{failure}"),
            Failure::Wrong { text, fault } => write!(f, "{text}, {fault}"),
            Failure::NotAGroup(text) => write!(f, "{text}: not a group"),
        }
    }
}

impl<'a> From<files::Failure<'a>> for Failure<'a> {
    fn from(failure: files::Failure<'a>) -> Self {
        Failure::Files(failure)
    }
}

impl<'a> Failure<'a> {
    // Why no group could be made of a text.
    fn of_text(text: &'a str, why: Unmade) -> Self {
        match why {
            Unmade::Wrong(fault) => Failure::Wrong { text, fault },
            Unmade::OutOfMemory => files::Failure::from(io::Error::from(AllocError)).into(),
        }
    }
}

fn write_group<'a>(rt: &HostRuntime, text: &'a str, group: &'a str) -> Result<(), Failure<'a>> {
    let numbers = read_file(rt, text)?;
    let bytes = bytes_of(rt.alloc(), &numbers).map_err(|why| Failure::of_text(text, why))?;
    if Group::validate(&bytes).is_err() {
        return Err(Failure::NotAGroup(text));
    }
    write_file(rt, group, &bytes)?;
    Ok(())
}

fn run<'a>(rt: &HostRuntime, words: &'a [String]) -> Result<ExitCode, Failure<'a>> {
    match words {
        [first, ..] if first.as_str() == "--help" => Ok(helped(rt, USAGE, HELP)?),
        [text, group] if text == group => Err(Failure::Files(files::Failure::TakesPlace {
            made: "group",
            source: "text",
            path: text,
        })),
        [text, group] => {
            write_group(rt, text, group)?;
            Ok(ExitCode::SUCCESS)
        }
        _ => Ok(misused(rt, USAGE)?),
    }
}

fn main(rt: HostRuntime) -> ExitCode {
    with_words(&rt, "group", |words| ended(&rt, "group", run(&rt, words)))
}

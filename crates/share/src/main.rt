// Reads a group, and tells who has which room and what they pay; writes the sheet that shows it.
#![tactic(auto)]

use files::{
    Failure, ended, helped, misused, printed, read_front, read_group, reported, with_words,
    write_file,
};
use rooms::group::MOST_PEOPLE;
use sheet::report::{JointLine, LeastLine, person_line};
use sheet::sharing::{MOST_RENTS, MOST_SHEET, MOST_WORK, Shared};
use sheet::{share, sheet_len};
use std::io;
use std::process::ExitCode;

const USAGE: &str = "usage: share [GROUP [SHEET]]";

const HELP: &str = "\
Reads a group's bytes from the file GROUP, or from standard input where none or - is given, and tells
who has which room and what they pay: the joint worth, a line for each person, and n times what the one
who has least gains. Writes the sheet that shows it to the file SHEET. A group that is not taken prints
'refused NUMBER at PLACE', writes nothing, and ends with status 1.";

// The bytes of the named file, or of the standard input.
fn read_named<'a>(rt: &HostRuntime, path: &'a str) -> Result<Vec<u8>, Failure<'a>> {
    if path == "-" {
        return reported("standard input", read_front(rt.alloc(), rt.stdin()));
    }
    read_group(rt, path)
}

// Writes the sheet of a group where a file is named, and then tells the share, or why there is none. The lines come last, so that status 0 says that
// the sheet is there and the lines are out.
fn answer<'a>(
    rt: &HostRuntime,
    group: &'a str,
    sheet_path: Option<&'a str>,
) -> Result<ExitCode, Failure<'a>> {
    let group = read_named(rt, group)?;
    let mut rooms = [0; MOST_PEOPLE];
    let mut rents = [0; MOST_RENTS];
    let mut work = [0; MOST_WORK];
    let mut sheet = [0; MOST_SHEET];
    match share(&group, &mut rooms, &mut rents, &mut work, &mut sheet) {
        Ok(shared) => {
            if let Some(path) = sheet_path {
                write_file(rt, path, &sheet[..sheet_len(shared.people)])?;
            }
            printed(tell(rt, &shared, &rooms, &rents))?;
            Ok(ExitCode::SUCCESS)
        }
        Err(refusal) => {
            printed(println!(rt; "{refusal}"))?;
            Ok(ExitCode::FAILURE)
        }
    }
}

// The lines of a share.
fn tell(rt: &impl Print, shared: &Shared, rooms: &[u32], rents: &[u64]) -> io::Result<()> {
    let people = shared.people;
    println!(rt; "{}", JointLine(shared.joint))?;
    for line in (0..people).filter_map(|i| person_line(rooms, rents, people, i)) {
        println!(rt; "{line}")?;
    }
    let least = shared.least;
    println!(rt; "{}", LeastLine { least, people })
}

fn run<'a>(rt: &HostRuntime, words: &'a [String]) -> Result<ExitCode, Failure<'a>> {
    match words {
        [first, ..] if first.as_str() == "--help" => helped(rt, USAGE, HELP),
        [] => answer(rt, "-", None),
        [group] => answer(rt, group, None),
        [group, sheet] if group == sheet => Err(Failure::TakesPlace {
            made: "sheet",
            source: "group",
            path: sheet,
        }),
        [group, sheet] => answer(rt, group, Some(sheet)),
        _ => misused(rt, USAGE),
    }
}

fn main(rt: HostRuntime) -> ExitCode {
    with_words(&rt, "share", |words| ended(&rt, "share", run(&rt, words)))
}

// How the programs read, write and end: files are read no further than can be right and written whole or not at all, and what a program failed by is
// one line on standard error. No contract can speak of what a disk holds, a stream was sent or a program was called with, so some of these functions
// have none; .ci/programs tries them.
#![tactic(auto)]

ghost use Rattle.std.specs.Prelude.{◌≡◌, ◌≤◌, ◌⊎◌, IfOk, IfErr, Ok, Err, vec_len, MatchResult};
ghost use Rattle.std.specs.Process.{exit_status};
ghost use Rattle.files.specs.declared.Failure.TheVariants.{CannotRead, CannotWrite, CannotPrint, Other};

use std::alloc::Global;
use std::fs::{File, OpenOptions};
use std::io::{Error, ErrorKind, Read, Write};
use std::process::ExitCode;
use std::{env, fmt, fs, io};

// More than any group, sheet or sensible text has.
const MOST_BYTES: usize = 1048576;

// How many names beside a file are tried.
const MOST_NAMES: u32 = 9;

// Why a program could not do what it was called for.
#[derive(Clone, Copy, Debug)]
pub enum Failure<'a> {
    CannotRead {
        name: &'a str,
        error: io::Error,
    },
    CannotWrite {
        name: &'a str,
        error: io::Error,
    },
    CannotPrint(io::Error),
    // What a program makes was to take the place of what it is made from.
    TakesPlace {
        made: &'static str,
        source: &'static str,
        path: &'a str,
    },
    Other(io::Error),
}

impl fmt::Display for Failure<'_> {
    fn fmt<W: fmt::Write>(&self, f: &mut fmt::Formatter<W>) -> fmt::Result {
        match self {
            Failure::CannotRead { name, error } => write!(f, "cannot read {name}: {error}"),
            Failure::CannotWrite { name, error } => write!(f, "cannot write {name}: {error}"),
            Failure::CannotPrint(error) => write!(f, "cannot write to standard output: {error}"),
            Failure::TakesPlace { made, source, path } => {
                write!(f, "the {made} can't take the place of its {source}, {path}")
            }
            Failure::Other(error) => write!(f, "{error}"),
        }
    }
}

impl std::error::Error for Failure<'_> {}

impl From<io::Error> for Failure<'_> {
    ghost from_gives = { λ e failure. failure ≡ Other e };

    fn from(e: io::Error) -> Self {
        Failure::Other(e)
    }
}

// The words that a program was called with, after its own name. What they are no contract can say.
fn arguments(rt: &HostRuntime) -> io::Result<Vec<String>> {
    Ok(env::args(rt)?.skip(1).collect(rt.alloc())?)
}

// Runs a program on the words that it was called with. It ends inside, since its failure may borrow them.
pub fn with_words<F: FnOnce(&[String]) -> ExitCode>(
    rt: &HostRuntime,
    program: &str,
    run: F,
) -> ExitCode
    requires { F.IsAlwaysCallable run }
    ensures { ((words : _) × F.post run words result) ⊎ (exit_status result ≡ 1) }
{
    match arguments(rt) {
        Ok(words) => run(&words),
        Err(error) => ended(rt, program, Err(error)),
    }
}

// Tells how a program is called, where it was called otherwise; the status to end with.
pub fn misused<'a>(rt: &impl Eprint, usage: &str) -> Result<ExitCode, Failure<'a>>
    ensures { IfOk result (λ code. exit_status code ≡ 1) }
{
    eprintln!(rt; "{usage}")?;
    Ok(ExitCode::FAILURE)
}

// Tells what a program does, where it was asked; the status to end with.
pub fn helped<'a>(rt: &impl Print, usage: &str, help: &str) -> Result<ExitCode, Failure<'a>>
    ensures { IfOk result (λ code. exit_status code ≡ 0) }
{
    printed(println!(rt; "{usage}"))?;
    for line in help.lines() {
        printed(println!(rt; "{line}"))?;
    }
    Ok(ExitCode::SUCCESS)
}

// The status that a program ends with. What it failed by is one line on standard error; where it can't be told, why it can't is tried, and then the
// status alone tells of it.
pub fn ended<E: fmt::Display + Drop>(
    rt: &impl Eprint,
    program: &str,
    outcome: Result<ExitCode, E>,
) -> ExitCode
    ensures { MatchResult outcome (λ code. result ≡ code) (λ _. exit_status result ≡ 1) }
{
    match outcome {
        Ok(code) => code,
        Err(failure) => {
            let told = eprintln!(rt; "{program}: {failure}");
            if let Err(untold) = told {
                let _ = eprintln!(rt; "{program}: {untold}");
            }
            ExitCode::FAILURE
        }
    }
}

// The first bytes of an input, more of them than a group has: what a group is refused for stands there, however long the input goes on.
pub fn read_front<R: Read + Drop>(heap: Global, from: R) -> io::Result<Vec<u8>>
    ensures { IfOk result (λ bytes. vec_len bytes ≤ 1048577) }
{
    let mut bytes = Vec::new(heap);
    from.take(1 + MOST_BYTES as u64).read_to_end(&mut bytes)?;
    bytes.truncate(1 + MOST_BYTES);
    Ok(bytes)
}

// All bytes of an input of which these are the first. One that goes on and on is refused, before it fills the memory.
pub fn whole(front: Vec<u8>) -> io::Result<Vec<u8>>
    ensures { MatchResult result (λ bytes. (bytes ≡ front) × (vec_len front ≤ 1048576)) (λ _. 1048577 ≤ vec_len front) }
{
    if front.len() > MOST_BYTES {
        let words = "it has more than 1048576 bytes";
        return Err(Error::new(ErrorKind::FileTooLarge, words));
    }
    Ok(front)
}

// What was read of the input with this name.
pub fn reported(name: &str, outcome: io::Result<Vec<u8>>) -> Result<Vec<u8>, Failure<'_>>
    ensures { MatchResult outcome (λ bytes. result ≡ Ok bytes) (λ error. result ≡ Err (CannotRead name.entry error)) }
{
    outcome.map_err(|error| Failure::CannotRead { name, error })
}

// The first bytes of a file, for a group.
pub fn read_group<'a>(rt: &HostRuntime, path: &'a str) -> Result<Vec<u8>, Failure<'a>>
    ensures { IfOk result (λ bytes. vec_len bytes ≤ 1048577) }
{
    let front = File::open(rt, path).and_then(|file| read_front(rt.alloc(), file));
    reported(path, front)
}

// All bytes of a file.
pub fn read_file<'a>(rt: &HostRuntime, path: &'a str) -> Result<Vec<u8>, Failure<'a>>
    ensures { IfOk result (λ bytes. vec_len bytes ≤ 1048576) }
{
    reported(path, whole(read_group(rt, path)?))
}

// Fails where standard output did not take what was printed.
pub fn printed<'a>(outcome: io::Result<()>) -> Result<(), Failure<'a>>
    ensures { MatchResult outcome (λ _. result ≡ Ok tt) (λ error. result ≡ Err (CannotPrint error)) }
{
    outcome.map_err(|error| Failure::CannotPrint(error))
}

// Writes the bytes to a file.
pub fn write_file<'a>(rt: &HostRuntime, path: &'a str, bytes: &[u8]) -> Result<(), Failure<'a>>
    ensures { IfErr result (λ failure. (error : _) × failure ≡ CannotWrite path.entry error) }
{
    write_whole(rt, path, bytes).map_err(|error| Failure::CannotWrite { name: path, error })
}

// A pipe or a device takes the bytes as they come, and keeps its place. A file that is there keeps its permissions, and is left alone where it may not be
// written. A link to a file is refused: std can't tell where it leads, so the file there could not be written whole or not at all, and to take
// the link's own place would cut it off from what it led to.
fn write_whole(rt: &HostRuntime, path: &str, bytes: &[u8]) -> io::Result<()> {
    let found = match fs::symlink_metadata(rt, path) {
        Err(e) if e.kind() == ErrorKind::NotFound => {
            return put_in_place(rt, path, bytes, |_, _| Ok(()));
        }
        found => found?,
    };
    // Opened so, what is there does not change; a folder is refused.
    let mut there = OpenOptions::new().write(true).open(rt, path)?;
    if !there.metadata()?.is_file() {
        return there.write_all(bytes);
    }
    if found.is_symlink() {
        let words = "it is a symbolic link; name the file that it leads to";
        return Err(Error::new(ErrorKind::InvalidInput, words));
    }
    put_in_place(rt, path, bytes, |file, beside| {
        // A copy takes over the permissions, and fails where the file may not be read.
        fs::copy(rt, path, beside)?;
        file.set_len(0)
    })
}

// Writes into a new file beside the path, which first takes over what it has to.
fn put_in_place<F: FnOnce(&mut File, &str) -> io::Result<()>>(
    rt: &HostRuntime,
    path: &str,
    bytes: &[u8],
    take_over: F,
) -> io::Result<()>
    requires { F.IsAlwaysCallable take_over }
{
    let (mut file, beside) = make_beside(rt, path)?;
    let name = beside.as_str();
    let done = take_over(&mut file, name).and_then(|()| finish(rt, file, name, path, bytes));
    if done.is_err() {
        let _ = fs::remove_file(rt, name);
    }
    done
}

// A new file beside the path, and its name. It is one that nobody has, so that no file of the user's is touched.
fn make_beside(rt: &HostRuntime, path: &str) -> io::Result<(File, String)> {
    for k in 1..=MOST_NAMES {
        let name = format!(in rt.alloc(); "{path}.part{k}")?;
        match File::create_new(rt, name.as_str()) {
            Err(e) if e.kind() == ErrorKind::AlreadyExists => {}
            file => return Ok((file?, name)),
        }
    }
    let words = "the names beside it are taken, .part1 to .part9";
    Err(Error::new(ErrorKind::AlreadyExists, words))
}

// Fills the file beside, which then takes the name. A full disk may show only when the bytes reach it, so they are waited for before the old file goes.
// Its five parameters are what the three calls take; nothing ties them.
fn finish(
    rt: &HostRuntime,
    mut file: File,
    beside: &str,
    path: &str,
    bytes: &[u8],
) -> io::Result<()> {
    file.write_all(bytes)?;
    file.sync_all()?;
    fs::rename(rt, beside, path)
}

#[cfg(test)]
mod tests {
    use super::*;
    use std::test::Fail;

    // That memory is there no contract can say.
    #[test]
    fn words_are_found(rt: HostRuntime) -> Result<(), Fail> {
        let _ = arguments(&rt)?;
        Ok(())
    }

    #[test]
    fn the_program_is_run(rt: HostRuntime) -> Result<(), Fail> {
        let code = with_words(&rt, "files", |_| ExitCode::SUCCESS);
        assert_eq!(rt; code, ExitCode::SUCCESS);
        Ok(())
    }
}

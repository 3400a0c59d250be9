// The text of a group: its numbers, each with its place, and the bytes that they make.
use rooms::group::{MOST_PEOPLE, MOST_RENT, MOST_WORTH};
use std::alloc::{AllocError, AllocFailed, Global};
use std::ops::RangeInclusive;
use std::{fmt, vec};

// A place of the text; lines and columns count from 1.
#[derive(Clone, Copy, Debug, PartialEq, Eq)]
pub(super) struct Place {
    line: u64,
    column: u64,
}

impl Place {
    const START: Place = Place { line: 1, column: 1 };

    // The place after a byte that stands at this one.
    fn after(self, byte: u8) -> Place {
        if byte == b'\n' {
            return Place {
                line: self.line.saturating_add(1),
                column: 1,
            };
        }
        Place {
            column: self.column.saturating_add(1),
            ..self
        }
    }
}

// What is wrong with a text.
#[derive(Clone, Copy, Debug, PartialEq, Eq)]
pub(super) enum Kind {
    Character,
    People,
    Rent,
    Worth,
    TooManyNumbers,
    TooFewNumbers,
}

impl fmt::Display for Kind {
    fn fmt<W: fmt::Write>(&self, f: &mut fmt::Formatter<W>) -> fmt::Result {
        f.write_str(match self {
            Kind::Character => "neither a number nor a space",
            Kind::People => "the people are 1 to 24",
            Kind::Rent => "the rent is 0 to 24000000 cents",
            Kind::Worth => "a worth is 0 to 1000000 cents",
            Kind::TooManyNumbers => "more numbers than the people's worths",
            Kind::TooFewNumbers => "the text ends before all numbers are there",
        })
    }
}

// What is wrong with a text, and where.
#[derive(Clone, Copy, Debug, PartialEq, Eq)]
pub(super) struct Fault {
    at: Place,
    kind: Kind,
}

impl fmt::Display for Fault {
    fn fmt<W: fmt::Write>(&self, f: &mut fmt::Formatter<W>) -> fmt::Result {
        let Fault { at, kind } = self;
        write!(f, "line {}, column {}: {kind}", at.line, at.column)
    }
}

// Why no group could be made of a text.
#[derive(Clone, Copy, Debug)]
pub(super) enum Unmade {
    Wrong(Fault),
    OutOfMemory,
}

impl From<Fault> for Unmade {
    fn from(fault: Fault) -> Self {
        Unmade::Wrong(fault)
    }
}

impl From<AllocError> for Unmade {
    fn from(_error: AllocError) -> Self {
        Unmade::OutOfMemory
    }
}

impl<T: Drop> From<AllocFailed<T>> for Unmade {
    fn from(_failed: AllocFailed<T>) -> Self {
        Unmade::OutOfMemory
    }
}

// A number of the text, and where it begins. One beyond its type is as large as the type has, which is above every bound.
#[derive(Clone, Copy, Debug)]
struct Number {
    value: u64,
    at: Place,
}

impl Number {
    fn with_digit(self, digit: u8) -> Number {
        Number {
            value: self
                .value
                .saturating_mul(10)
                .saturating_add(u64::from(digit)),
            ..self
        }
    }
}

// The numbers of a text that are not yet taken, and where it ends.
#[derive(Drop)]
struct Numbers {
    left: vec::IntoIter<Number>,
    end: Place,
}

impl Numbers {
    // The next number, where it is within these bounds.
    fn next_within<T: TryFrom<u64> + PartialOrd + Drop>(
        &mut self,
        bounds: RangeInclusive<T>,
        kind: Kind,
    ) -> Result<T, Fault>
    where
        T::Error: Drop,
    {
        let Some(Number { value, at }) = self.left.next() else {
            return Err(Fault {
                at: self.end,
                kind: Kind::TooFewNumbers,
            });
        };
        T::try_from(value)
            .ok()
            .filter(|x| bounds.contains(x))
            .ok_or(Fault { at, kind })
    }
}

// The numbers of a text; or the first byte that is neither digit nor space.
fn numbers_of(heap: Global, text: &[u8]) -> Result<Numbers, Unmade> {
    let mut found = Vec::new(heap);
    let mut at = Place::START;
    let mut current: Option<Number> = None;
    for &byte in text {
        match byte {
            b'0'..=b'9' => {
                let so_far = current.unwrap_or(Number { value: 0, at });
                current = Some(so_far.with_digit(byte - b'0'));
            }
            // Not a form feed, which is_ascii_whitespace takes too.
            b' ' | b'\t' | b'\r' | b'\n' => {
                if let Some(number) = current.take() {
                    found.push(number)?;
                }
            }
            _ => {
                let kind = Kind::Character;
                return Err(Unmade::Wrong(Fault { at, kind }));
            }
        }
        at = at.after(byte);
    }
    if let Some(number) = current {
        found.push(number)?;
    }
    Ok(Numbers {
        left: found.into_iter(),
        end: at,
    })
}

// The bytes of the group that a text speaks of: n, the rent, and n × n worths.
pub(super) fn bytes_of(heap: Global, text: &[u8]) -> Result<Vec<u8>, Unmade> {
    let mut numbers = numbers_of(heap, text)?;
    let mut bytes = Vec::new(heap);
    let people = numbers.next_within(1..=MOST_PEOPLE as u8, Kind::People)?;
    bytes.push(people)?;
    let rent = numbers.next_within(0..=MOST_RENT, Kind::Rent)?;
    bytes.extend_from_slice(&rent.to_le_bytes())?;
    for _ in 0..usize::from(people) * usize::from(people) {
        let worth = numbers.next_within(0..=MOST_WORTH, Kind::Worth)?;
        bytes.extend_from_slice(&worth.to_le_bytes())?;
    }
    if let Some(Number { at, .. }) = numbers.left.next() {
        let kind = Kind::TooManyNumbers;
        return Err(Unmade::Wrong(Fault { at, kind }));
    }
    Ok(bytes)
}

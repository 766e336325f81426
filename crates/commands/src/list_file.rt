// The list of a day: a path on each line.
ghost use Rattle.std.specs.Prelude.{◌≡◌, ◌<◌, ◌∷◌, length, map, MatchBool, MatchResult};
ghost use Rattle.commands.specs.declared.list_file.LineFault.TheVariants.{NoMemory};
ghost use Rattle.commands.specs.Lines.{Adds, Fits, InOrder, IsAbove, IsNotAbove, Misfits, StopsAt, lines_in, path_of, paths_of};

use std::alloc::{AllocError, AllocFailed, Global};
use std::cmp::Ordering;

// A day has at most so many files.
const MOST_FILES: usize = 4_096;

// A path has at most so many bytes.
const MOST_IN_PATH: usize = 255;

// No list that is taken has more bytes, and in one that has more a line among the first so many bytes is refused.
pub const MOST_IN_LIST: usize = 1_056_769;

// What is wrong with a line.
#[derive(Clone, Copy, Debug, PartialEq, Eq)]
pub enum LineFault {
    BadPath,
    TooManyFiles,
    NotAbove,
    NoText,
    NoMemory,
}

// The first line that is refused, counted from 1.
#[derive(Clone, Copy, Debug, PartialEq, Eq)]
pub struct BadLine {
    pub line: usize,
    pub fault: LineFault,
}

// The first line of bytes, without the newline that may end it, and what follows it.
fn first_line(list: &[u8]) -> (&[u8], &[u8])
    requires { 0 < length list.now }
    ensures lines { lines_in list.now ≡ result.0.now ∷ lines_in result.1.now }
    ensures shorter { length result.1.now < length list.now }
{
    match list.iter().position(|b| *b == b'\n') {
        Some(end) => (&list[..end], &list[end + 1..]),
        None => (list, &[]),
    }
}

// A line without the `./` that may stand before it.
fn path_in(line: &[u8]) -> &[u8]
    ensures { result.now ≡ path_of line.now }
{
    line.strip_prefix(b"./").unwrap_or(line)
}

// Is a path above the last of these?
fn is_above(paths: &[&str], path: &[u8]) -> bool
    ensures { MatchBool result (IsAbove (map (λ p. p.now) paths.now) path.now) (IsNotAbove (map (λ p. p.now) paths.now) path.now) }
{
    match paths.last() {
        Some(last) => last.as_bytes().cmp(path) == Ordering::Less,
        None => true,
    }
}

// The path, if it may follow these.
fn checked<'a>(paths: &[&'a str], path: &'a [u8]) -> Result<&'a str, LineFault>
    ensures { MatchResult result (λ p. Fits (map (λ p. p.now) paths.now) path.now × (p.now ≡ path.now)) (Misfits (map (λ p. p.now) paths.now) path.now) }
{
    if path.is_empty() || path.len() > MOST_IN_PATH {
        return Err(LineFault::BadPath);
    }
    if paths.len() >= MOST_FILES {
        return Err(LineFault::TooManyFiles);
    }
    if !is_above(paths, path) {
        return Err(LineFault::NotAbove);
    }
    str::from_utf8(path).map_err(|_| LineFault::NoText)
}

fn add_line<'a>(paths: &mut Vec<&'a str>, line: &'a [u8]) -> Result<(), LineFault>
    ensures { Adds (map (λ p. p.now) paths.old.items) (path_of line.now) result (map (λ p. p.now) paths.new.items) }
{
    let path = checked(paths, path_in(line))?;
    paths.push(path)?;
    Ok(())
}

// The paths in a list, in their order.
pub fn paths_in<'a>(heap: Global, list: &'a [u8]) -> Result<Vec<&'a str>, BadLine>
    ensures { MatchResult result (λ v. (map (λ p. p.now) v.items ≡ paths_of list.now) × InOrder (paths_of list.now)) (λ bad. StopsAt (paths_of list.now) bad) }
{
    let mut paths = Vec::new(heap);
    let mut rest = list;
    while !rest.is_empty() {
        let (line, after) = first_line(rest);
        let place = paths.len();
        if let Err(fault) = add_line(&mut paths, line) {
            let line = place + 1;
            return Err(BadLine { line, fault });
        }
        rest = after;
    }
    Ok(paths)
}

impl From<AllocError> for LineFault {
    ghost from_gives = { λ _ f. f ≡ NoMemory };

    fn from(_e: AllocError) -> LineFault {
        LineFault::NoMemory
    }
}

impl<T: Drop> From<AllocFailed<T>> for LineFault {
    ghost from_gives = { λ _ f. f ≡ NoMemory };

    fn from(_e: AllocFailed<T>) -> LineFault {
        LineFault::NoMemory
    }
}

// Reads a day file. Each function answers what it has read, and the bytes after it.
ghost use Rattle.std.specs.Prelude.{◌≡◌};
ghost use Rattle.std.specs.Int.{w16, w32};
ghost use Rattle.dayfile.specs.Files.{entry_of};
ghost use Rattle.dayfile.specs.Reading.{Gives, bad_day, entry_at, many_at, name_at, number_at, path_at};
ghost use Rattle.dayfile.specs.Reads.{IsSigned, BeginsAs, MakesDay, Reads, ReadsNames};

use crate::day::Day;
use crate::entry::FileEntry;
use crate::path::Path;
use cutting::Refusal;
use digest::{Digest, sha256};
use std::alloc::Global;
use store::DayName;

fn u16_at(bytes: &[u8]) -> Result<(u16, &[u8]), Refusal>
    ensures { Gives (λ x. (x.0, x.1.now)) result (number_at w16 bytes.now) }
{
    let Some((front, rest)) = bytes.split_first_chunk::<2>() else {
        return Err(Refusal::BadDay);
    };
    Ok((u16::from_be_bytes(*front), rest))
}

fn u32_at(bytes: &[u8]) -> Result<(u32, &[u8]), Refusal>
    ensures { Gives (λ x. (x.0, x.1.now)) result (number_at w32 bytes.now) }
{
    let Some((front, rest)) = bytes.split_first_chunk::<4>() else {
        return Err(Refusal::BadDay);
    };
    Ok((u32::from_be_bytes(*front), rest))
}

// A path behind its length.
#[tactic(auto, unfolding(crate::specs::Reading::path_at))]
fn path_in(heap: Global, bytes: &[u8]) -> Result<(Path, &[u8]), Refusal>
    ensures { Gives (λ x. (x.0.bytes.items, x.1.now)) result (path_at bytes.now) }
{
    let [count, rest @ ..] = bytes else {
        return Err(Refusal::BadDay);
    };
    let Some((path, rest)) = rest.split_at_checked(*count as usize) else {
        return Err(Refusal::BadDay);
    };
    if path.is_empty() {
        return Err(Refusal::BadDay);
    }
    Ok((Path::new(heap, path)?, rest))
}

#[tactic(auto, unfolding(crate::specs::Reading::name_at))]
fn name_in(bytes: &[u8]) -> Result<(Digest, &[u8]), Refusal>
    ensures { Gives (λ x. (x.0, x.1.now)) result (name_at bytes.now) }
{
    let Some((name, rest)) = bytes.split_first_chunk::<32>() else {
        return Err(Refusal::BadDay);
    };
    Ok((Digest::from(*name), rest))
}

// The names of so many pieces. Memory is taken only for names that are there.
fn names_in(heap: Global, count: u16, bytes: &[u8]) -> Result<(Vec<Digest>, &[u8]), Refusal>
    ensures { Gives (λ x. (x.0.items, x.1.now)) result (many_at name_at count bytes.now) }
{
    let mut names = Vec::new(heap);
    let mut rest = bytes;
    for _ in 0..count {
        let (name, after) = name_in(rest)?;
        names.push(name)?;
        rest = after;
    }
    Ok((names, rest))
}

#[tactic(auto, unfolding(crate::specs::Reading::entry_at))]
fn entry_in(heap: Global, bytes: &[u8]) -> Result<(FileEntry, &[u8]), Refusal>
    ensures { Gives (λ x. (entry_of x.0, x.1.now)) result (entry_at bytes.now) }
{
    let (path, rest) = path_in(heap, bytes)?;
    let (length, rest) = u32_at(rest)?;
    let (count, rest) = u16_at(rest)?;
    let (pieces, rest) = names_in(heap, count, rest)?;
    Ok((
        FileEntry {
            path,
            length,
            pieces,
        },
        rest,
    ))
}

// A file that may not follow those before it makes the day bad.
fn bad_day(refusal: Refusal) -> Refusal
    ensures { result ≡ bad_day refusal }
{
    match refusal {
        Refusal::NoMemory => Refusal::NoMemory,
        _ => Refusal::BadDay,
    }
}

// So many files, each of which may follow those before it.
fn files_in(heap: Global, count: u16, bytes: &[u8]) -> Result<(Day, &[u8]), Refusal>
    ensures { MakesDay result (many_at entry_at count bytes.now) }
{
    let mut day = Day::new(heap);
    let mut rest = bytes;
    for _ in 0..count {
        let (entry, after) = entry_in(heap, rest)?;
        match day.push(entry) {
            Ok(()) => rest = after,
            Err(refusal) => return Err(bad_day(refusal)),
        }
    }
    Ok((day, rest))
}

// What stands before the digest of it.
fn body_in(bytes: &[u8]) -> Result<&[u8], Refusal>
    ensures { IsSigned bytes.now result }
{
    let Some((body, end)) = bytes.split_last_chunk::<32>() else {
        return Err(Refusal::BadDay);
    };
    if sha256(body).as_bytes() != end {
        return Err(Refusal::BadDay);
    }
    Ok(body)
}

// What stands behind the name of the day.
fn after_name(name: DayName, body: &[u8]) -> Result<&[u8], Refusal>
    ensures { BeginsAs name body.now result }
{
    let [68, machine, rest @ ..] = body else {
        return Err(Refusal::BadDay);
    };
    let (number, rest) = u32_at(rest)?;
    if *machine != name.machine || number != name.number {
        return Err(Refusal::BadDay);
    }
    Ok(rest)
}

// The files of a day from its day file. Any other bytes are refused.
pub fn read(heap: Global, name: DayName, bytes: &[u8]) -> Result<Day, Refusal>
    ensures { Reads name bytes.now result }
{
    let body = body_in(bytes)?;
    let rest = after_name(name, body)?;
    let (count, rest) = u16_at(rest)?;
    let (day, rest) = files_in(heap, count, rest)?;
    if !rest.is_empty() {
        return Err(Refusal::BadDay);
    }
    Ok(day)
}

// The names of all pieces of a day from its day file, in their order.
pub fn read_names(heap: Global, name: DayName, bytes: &[u8]) -> Result<Vec<Digest>, Refusal>
    ensures { ReadsNames name bytes.now result }
{
    let day = read(heap, name, bytes)?;
    day.names(heap)
}

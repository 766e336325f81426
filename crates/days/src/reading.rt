// Having a file back.
ghost use Rattle.std.specs.Prelude.{◌≡◌, ◌≤◌, length, take};
ghost use Rattle.dayfile.specs.Files.{entry_of};
ghost use Rattle.days.specs.Backs.{Backs, Extends, Joins, JoinsAll, JoinsPiece, ReadsPiece, ReadsRight};

use cutting::Refusal;
use dayfile::{FileEntry, fill_file, read};
use digest::{Digest, sha256};
use std::alloc::Global;
use store::{DayName, Spot, Store};

// What lies there under a name, if it is of that name.
fn read_right<S: Store>(store: &mut S, spot: Spot, name: Digest) -> Result<Option<Vec<u8>>, Refusal>
    ensures { ReadsRight S.does spot name store.old result store.new }
{
    let Some(bytes) = store.read(spot, name)? else {
        return Ok(None);
    };
    if sha256(&bytes) != name {
        return Ok(None);
    }
    Ok(Some(bytes))
}

// The bytes of a piece, from its place, else from aside. Where it is put back between these two looks, neither finds it, so its place is looked at again.
fn read_piece<S: Store>(store: &mut S, name: Digest) -> Result<Vec<u8>, Refusal>
    ensures { ReadsPiece S.does name store.old result store.new }
{
    if let Some(bytes) = read_right(store, Spot::Place, name)? {
        return Ok(bytes);
    }
    if let Some(bytes) = read_right(store, Spot::Aside, name)? {
        return Ok(bytes);
    }
    let again = read_right(store, Spot::Place, name)?;
    again.ok_or(Refusal::BadDay)
}

// Writes a piece into a file, behind the bytes that are there.
#[tactic(auto, using(crate::proofs::Joining::longer))]
fn extend(file: &mut [u8], at: &mut usize, piece: &[u8]) -> Result<(), Refusal>
    requires { at.now ≤ length file.now }
    ensures extends { Extends (length file.old) (take at.old file.old) piece.now result (take at.new file.new) }
    ensures length { length file.new ≡ length file.old }
    ensures at { at.new ≤ length file.new }
{
    if !fill_file(file, *at, piece) {
        return Err(Refusal::BadDay);
    }
    *at += piece.len();
    Ok(())
}

// So with a piece that is read.
#[tactic(auto, using(crate::proofs::Joining::joined))]
fn join_piece<S: Store>(
    store: &mut S,
    name: Digest,
    file: &mut [u8],
    at: &mut usize,
) -> Result<(), Refusal>
    requires { at.now ≤ length file.now }
    ensures joins { JoinsPiece S.does (length file.old) name store.old (take at.old file.old) result store.new (take at.new file.new) }
    ensures length { length file.new ≡ length file.old }
    ensures at { at.new ≤ length file.new }
{
    let piece = read_piece(store, name)?;
    extend(file, at, &piece)
}

// And with each piece of a file.
#[tactic(auto, using(crate::proofs::Places::loop_done, crate::proofs::Places::loop_stops, crate::proofs::Places::times_more, crate::proofs::Places::times_none))]
fn join_all<S: Store>(
    store: &mut S,
    names: &[Digest],
    file: &mut [u8],
    at: &mut usize,
) -> Result<(), Refusal>
    requires { at.now ≤ length file.now }
    ensures joins { JoinsAll S.does (length file.old) names.now store.old (take at.old file.old) result store.new (take at.new file.new) }
    ensures length { length file.new ≡ length file.old }
    ensures at { at.new ≤ length file.new }
{
    for name in names {
        join_piece(store, *name, file, at)?;
    }
    Ok(())
}

// The bytes of a file of a day.
fn join<S: Store>(heap: Global, store: &mut S, entry: &FileEntry) -> Result<Vec<u8>, Refusal>
    ensures { Joins S.does (entry_of entry.now) store.old result store.new }
{
    let length = entry.length as usize;
    let mut file = vec![in heap; 0; length]?;
    let mut at = 0;
    join_all(store, &entry.pieces, &mut file, &mut at)?;
    if at != length {
        return Err(Refusal::BadDay);
    }
    Ok(file)
}

// The bytes of the file of this path in a day.
pub fn back<S: Store>(
    heap: Global,
    store: &mut S,
    day: DayName,
    path: &[u8],
) -> Result<Vec<u8>, Refusal>
    ensures { Backs S.does day path.now store.old result store.new }
{
    let Some(bytes) = store.read_day(day)? else {
        return Err(Refusal::Unknown);
    };
    let files = read(heap, day, &bytes)?;
    let Some(entry) = files.find(path) else {
        return Err(Refusal::Unknown);
    };
    join(heap, store, entry)
}

// Seeing to the pieces of a file.
ghost use Rattle.std.specs.Prelude.{◌≡◌, ◌<◌, ◌≤◌, [], length, map, slice_index_or};
ghost use Rattle.cutting.specs.Results.{contents};
ghost use Rattle.digest.specs.Digests.{digest_of};
ghost use Rattle.days.specs.Steps.{HaveRoom, ListsAbsent, ListsAll, SeesAll, SeesFile, SeesTo};

use crate::asking::has_piece;
use cutting::Refusal;
use dayfile::fill_piece;
use digest::Digest;
use store::{Listing, Store};

// Lists the name of a piece, if it is not there.
fn list_piece<S: Store>(
    store: &mut S,
    machine: u8,
    name: Digest,
    piece: &[u8],
) -> Result<(), Refusal>
    requires { name ≡ digest_of piece.now }
    ensures { ListsAbsent S.does machine piece.now store.old tt result store.new tt }
{
    if has_piece(store, name, piece)? {
        return Ok(());
    }
    store.enlist(Listing { machine, name })
}

// So with a part of a file, which is copied into the buffer of a piece: that is what the store is given.
fn list_part<S: Store>(
    store: &mut S,
    machine: u8,
    name: Digest,
    part: &[u8],
    buffer: &mut [u8],
) -> Result<(), Refusal>
    requires name { name ≡ digest_of part.now }
    requires room { length part.now ≤ length buffer.now }
    ensures lists { ListsAbsent S.does machine part.now store.old tt result store.new tt }
    ensures room { length buffer.new ≡ length buffer.old }
{
    let piece = &mut buffer[..part.len()];
    fill_piece(piece, part, 0);
    list_piece(store, machine, name, piece)
}

// And with each of these, which have these names.
#[tactic(auto, using(crate::proofs::Places::each_done, crate::proofs::Places::each_stops, crate::proofs::Places::times_more, crate::proofs::Places::times_none, crate::proofs::Places::piece_at, crate::proofs::Places::name_at))]
fn list_absent<S: Store>(
    store: &mut S,
    machine: u8,
    names: &[Digest],
    pieces: &[&[u8]],
    buffer: &mut [u8],
) -> Result<(), Refusal>
    requires names { names.now ≡ map digest_of (contents pieces.now) }
    requires room { HaveRoom (contents pieces.now) (length buffer.now) }
    ensures lists { ListsAll S.does machine (contents pieces.now) store.old tt result store.new tt }
    ensures room { length buffer.new ≡ length buffer.old }
{
    for i in 0..pieces.len() {
        list_part(store, machine, names[i], pieces[i], buffer)?;
    }
    Ok(())
}

// Sees to a piece: whether it was written.
fn see_piece<S: Store>(
    store: &mut S,
    machine: u8,
    name: Digest,
    piece: &[u8],
) -> Result<bool, Refusal>
    requires { name ≡ digest_of piece.now }
    ensures { SeesTo S.does machine piece.now store.old result store.new }
{
    if has_piece(store, name, piece)? {
        return Ok(false);
    }
    store.enlist(Listing { machine, name })?;
    store.write(name, piece)?;
    Ok(true)
}

// So with a part of a file, which is copied into the buffer.
fn see_part<S: Store>(
    store: &mut S,
    machine: u8,
    name: Digest,
    part: &[u8],
    buffer: &mut [u8],
) -> Result<bool, Refusal>
    requires name { name ≡ digest_of part.now }
    requires room { length part.now ≤ length buffer.now }
    ensures sees { SeesTo S.does machine part.now store.old result store.new }
    ensures room { length buffer.new ≡ length buffer.old }
{
    let piece = &mut buffer[..part.len()];
    fill_piece(piece, part, 0);
    see_piece(store, machine, name, piece)
}

// And with each of these, which have these names; counts how many are written.
#[tactic(auto, using(crate::proofs::Places::each_done, crate::proofs::Places::each_stops, crate::proofs::Places::times_more, crate::proofs::Places::times_none, crate::proofs::Places::piece_at, crate::proofs::Places::name_at))]
fn see_all<S: Store>(
    store: &mut S,
    machine: u8,
    names: &[Digest],
    pieces: &[&[u8]],
    buffer: &mut [u8],
    written: &mut usize,
) -> Result<(), Refusal>
    requires names { names.now ≡ map digest_of (contents pieces.now) }
    requires room { HaveRoom (contents pieces.now) (length buffer.now) }
    requires none_yet { written.now ≡ 0 }
    ensures { SeesAll S.does machine (contents pieces.now) store.old written.old result store.new written.new }
{
    for k in 0..pieces.len() {
        if see_part(store, machine, names[k], pieces[k], buffer)? {
            *written += 1;
        }
    }
    Ok(())
}

// Sees to all pieces of a file. Their names are listed before any of them is written, so that a store may keep all these names at once.
#[tactic(auto, unfolding(crate::specs::Steps::SeesFile))]
pub(crate) fn see_file<S: Store>(
    store: &mut S,
    machine: u8,
    names: &[Digest],
    pieces: &[&[u8]],
    buffer: &mut [u8],
    written: &mut usize,
) -> Result<(), Refusal>
    requires names { names.now ≡ map digest_of (contents pieces.now) }
    requires room { HaveRoom (contents pieces.now) (length buffer.now) }
    requires none_yet { written.now ≡ 0 }
    ensures { SeesFile S.does machine (contents pieces.now) store.old result store.new written.new }
{
    list_absent(store, machine, names, pieces, buffer)?;
    see_all(store, machine, names, pieces, buffer, written)
}

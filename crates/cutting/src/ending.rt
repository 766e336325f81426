// Where a piece ends.
ghost use Rattle.std.specs.Prelude.{◌+◌, ◌<◌, ◌≤◌, length};
ghost use Rattle.cutting.specs.Finds.{Finds};
ghost use Rattle.cutting.specs.Results.{FirstPiece};

use crate::number::{next_number, number_after};
use std::ops::ControlFlow;

// A piece has at most so many bytes.
const MOST_IN_PIECE: usize = 65_536;

// And at least so many, unless the file ends with it.
const LEAST_IN_PIECE: usize = 2_048;

// So many bytes are looked at in a turn of the loop of `find_end_by_blocks` (docs/DECISIONS.md has the figures for other numbers).
const BLOCK: usize = 4;

// Looks for the end of a piece in its next bytes, before which the number is this. It has 2,048 bytes by then, and ends where the highest 13 bits of the
// number are 0. Breaks with how many of these bytes are still in the piece, if fewer than all; else goes on with the number after all.
fn find_end(mut number: u32, bytes: &[u8]) -> ControlFlow<usize, u32>
    ensures { Finds number bytes.now result }
{
    for (added, byte) in bytes.iter().enumerate() {
        if number >> 19 == 0 {
            return ControlFlow::Break(added);
        }
        number = next_number(number, *byte);
    }
    ControlFlow::Continue(number)
}

// The same, a block at a time.
#[tactic(auto, using(crate::proofs::Further::last_found))]
fn find_end_by_blocks(mut number: u32, bytes: &[u8]) -> ControlFlow<usize, u32>
    ensures { Finds number bytes.now result }
{
    let (blocks, last) = bytes.as_chunks::<BLOCK>();
    for (turn, block) in blocks.iter().enumerate() {
        number = find_end(number, block).map_break(|added| turn * BLOCK + added)?;
    }
    find_end(number, last).map_break(|added| blocks.len() * BLOCK + added)
}

// How many bytes the first piece of the rest of a file has. Of the 2,048 bytes before it may end only the last 32 are read, by `number_after`.
// How long the whole file is, it cannot know: that is for `check_length`.
pub fn piece_length(rest: &[u8]) -> usize
    ensures within { result ≤ length rest.now }
    ensures first { 0 < length rest.now → (0 < result) × FirstPiece rest.now result }
{
    let most = rest.len().min(MOST_IN_PIECE);
    let Some((least, more)) = rest[..most].split_at_checked(LEAST_IN_PIECE) else {
        return most;
    };
    match find_end_by_blocks(number_after(least), more) {
        ControlFlow::Break(added) => LEAST_IN_PIECE + added,
        ControlFlow::Continue(_) => most,
    }
}

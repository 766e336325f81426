// Copies between a file and a piece of it.
ghost use Rattle.std.specs.Prelude.{◌≡◌, ◌+◌, ◌<◌, ◌≤◌, ◌++◌, length, take, drop, MatchBool};

// Fills a piece from the bytes of a file, from this place on. Where the file has not so many, nothing is done.
pub fn fill_piece(piece: &mut [u8], file: &[u8], at: usize) -> bool
    ensures { MatchBool result ((at + length piece.old ≤ length file.now) × (piece.new ≡ take (length piece.old) (drop at file.now))) ((length file.now < at + length piece.old) × (piece.new ≡ piece.old)) }
{
    let Some((_, rest)) = file.split_at_checked(at) else {
        return false;
    };
    let Some((found, _)) = rest.split_at_checked(piece.len()) else {
        return false;
    };
    piece.copy_from_slice(found);
    true
}

// Writes a piece into a file, from this place on. Where the file has not so many bytes, nothing is done.
pub fn fill_file(file: &mut [u8], at: usize, piece: &[u8]) -> bool
    ensures { MatchBool result ((at + length piece.now ≤ length file.old) × (file.new ≡ take at file.old ++ (piece.now ++ drop (at + length piece.now) file.old))) ((length file.old < at + length piece.now) × (file.new ≡ file.old)) }
{
    if file.len() < at || file.len() - at < piece.len() {
        return false;
    }
    file[at..at + piece.len()].copy_from_slice(piece);
    true
}

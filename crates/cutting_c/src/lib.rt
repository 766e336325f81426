// What a program in C or Rust calls when it links this crate as a static library.
#![tactic(auto)]

ghost use Rattle.std.specs.Prelude.{◌<◌, ◌≤◌, length};
ghost use Rattle.cutting.specs.Results.{FirstPiece};

// How many bytes the first piece of the rest of a file has; 0 where there is no rest. As with `cutting::piece_length`, that a file has at most 16 MiB is for the caller to see.
// In C: size_t zeltuva_piece_length(const uint8_t *rest, size_t length). Nothing holds a caller there to what a caller here owes by its types: rest points to
// so many bytes.
#[unsafe(no_mangle)]
pub extern "C" fn zeltuva_piece_length(rest: &[u8]) -> usize
    ensures within { result ≤ length rest.now }
    ensures first { 0 < length rest.now → (0 < result) × FirstPiece rest.now result }
{
    cutting::piece_length(rest)
}

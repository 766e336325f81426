// The number that goes along a file, a rolling hash of its last 32 bytes.
ghost use Rattle.std.specs.Prelude.{◌≡◌, ℕ, ◌≤◌, List, ◌++◌, length};
ghost use Rattle.cutting.specs.Rule.{next, number_after_all};

// A byte has gone from the number after so many more.
const WINDOW: usize = 32;

// The number after one more byte.
pub fn next_number(number: u32, byte: u8) -> u32
    ensures { result ≡ next number byte }
{
    number
        .wrapping_mul(2)
        .wrapping_add((byte as u32).wrapping_mul(2_654_435_761))
}

// The number after these bytes, from 0 on. Only the last 32 of them are read: the others have gone from it.
#[tactic(auto, using(crate::proofs::Window::last_32, crate::proofs::Window::last_bytes))]
pub fn number_after(bytes: &[u8]) -> u32
    ensures number { result ≡ number_after_all bytes.now }
    ensures window { (front end : List ℕ) → bytes.now ≡ front ++ end → 32 ≤ length end → result ≡ number_after_all end }
{
    let (_, window) = bytes.split_at(bytes.len().saturating_sub(WINDOW));
    window
        .iter()
        .fold(0, |number, byte| next_number(number, *byte))
}

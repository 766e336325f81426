// A word of the script as an answer shows it.
ghost use Rattle.std.specs.Prelude.{◌≡◌, IfOk, string_bytes, Some};
ghost use Rattle.script.specs.Quotes.{plain, shown_byte, shown_bytes, quotation};

use std::alloc::{AllocError, Global};
use std::fmt;

// Of a longer word only so many bytes are shown.
const MOST_SHOWN: usize = 32;

// Printable, and neither apostrophe nor backslash.
fn is_plain(b: u8) -> bool
    ensures { result ≡ plain b }
{
    matches!(b, b' '..=b'~') && b != b'\'' && b != b'\\'
}

// A byte as it is shown: itself, or \x and its two hexadecimal digits.
#[derive(Clone, Copy)]
struct ShownByte(u8);

impl fmt::Display for ShownByte {
    ghost output = { λ s. Some (shown_byte s.0) };

    fn fmt<W: fmt::Write>(&self, f: &mut fmt::Formatter<W>) -> fmt::Result {
        if is_plain(self.0) {
            write!(f, "{}", self.0 as char)
        } else {
            write!(f, "\\x{:02x}", self.0)
        }
    }
}

// Bytes as they are shown, one after the other.
#[derive(Clone, Copy)]
struct Shown<'a>(&'a [u8]);

impl fmt::Display for Shown<'_> {
    ghost output = { λ s. Some (shown_bytes s.0.now) };

    fn fmt<W: fmt::Write>(&self, f: &mut fmt::Formatter<W>) -> fmt::Result {
        for b in self.0 {
            write!(f, "{}", ShownByte(*b))?;
        }
        Ok(())
    }
}

// A word between apostrophes; where it is longer, its front and two dots.
#[derive(Clone, Copy)]
struct Quotation<'a>(&'a [u8]);

impl fmt::Display for Quotation<'_> {
    ghost output = { λ q. Some (quotation q.0.now) };

    fn fmt<W: fmt::Write>(&self, f: &mut fmt::Formatter<W>) -> fmt::Result {
        if self.0.len() > MOST_SHOWN {
            write!(f, "'{}..'", Shown(&self.0[..MOST_SHOWN]))
        } else {
            write!(f, "'{}'", Shown(self.0))
        }
    }
}

// The text of a word between apostrophes.
pub fn quoted(heap: Global, word: &[u8]) -> Result<String, AllocError>
    ensures { IfOk result (λ t. string_bytes t ≡ quotation word.now) }
{
    Quotation(word).to_string(heap)
}

// What a step answers, in words.
ghost use Rattle.std.specs.Prelude.{Some, [], ◌∷◌};
ghost use Rattle.std.specs.Fmt.{WritesOnOk};
ghost use Rattle.digest.specs.Hex.{hex};
ghost use Rattle.rehearsal.specs.Texts.{answer_text, bytes_text};

use crate::listing::Listed;
use crate::shown::Shown;
use days::Done;
use digest::{Digest, hex_digit};
use std::fmt;
use store::write_each;

#[derive(Drop)]
pub enum Answer {
    Digest(Digest),
    // the pieces of a file
    Pieces(Vec<Listed>),
    // what a machine has done
    Done(Done),
    // a day is let go
    LetGo,
    // the bytes of a file, or of what lies under the name of a day
    File(Vec<u8>),
    // a byte is damaged
    Flipped,
    // a day is damaged
    Cut,
    // a machine is off the list
    Parted,
    // what the sweeper has done
    Swept(sweeper::Done),
    // the sweeper has come up again
    Stopped,
    // what is where
    Shown(Shown),
}

// A byte as its two hexadecimal digits.
#[derive(Clone, Copy)]
struct HexByte(u8);

impl fmt::Display for HexByte {
    ghost output = { λ b. Some (hex (b.0 ∷ [])) };

    fn fmt<W: fmt::Write>(&self, f: &mut fmt::Formatter<W>) -> fmt::Result {
        let high = hex_digit(self.0 / 16) as char;
        let low = hex_digit(self.0) as char;
        write!(f, "{high}{low}")
    }
}

// The digits of all bytes.
fn write_hex<W: fmt::Write>(bytes: &[u8], f: &mut fmt::Formatter<W>) -> fmt::Result
    ensures { WritesOnOk W.Write.write_str_gives f.old result (hex bytes.now) f.new }
{
    for byte in bytes {
        write!(f, "{}", HexByte(*byte))?;
    }
    Ok(())
}

// How many bytes there are, and then their digits, if there are any.
fn write_bytes<W: fmt::Write>(bytes: &[u8], f: &mut fmt::Formatter<W>) -> fmt::Result
    ensures { WritesOnOk W.Write.write_str_gives f.old result (bytes_text bytes.now) f.new }
{
    write!(f, "{}", bytes.len())?;
    if bytes.is_empty() {
        return Ok(());
    }
    write!(f, " ")?;
    write_hex(bytes, f)
}

impl fmt::Display for Answer {
    ghost output = { λ a. Some (answer_text a) };

    fn fmt<W: fmt::Write>(&self, f: &mut fmt::Formatter<W>) -> fmt::Result {
        match self {
            Answer::Digest(digest) => write!(f, "{digest}"),
            Answer::Pieces(list) => {
                write!(f, "pieces {}", list.len())?;
                write_each("\n", list, "", f)
            }
            Answer::Done(done) => write!(f, "{done}"),
            Answer::LetGo => write!(f, "let go"),
            Answer::File(bytes) => write_bytes(bytes, f),
            Answer::Flipped => write!(f, "flipped"),
            Answer::Cut => write!(f, "cut"),
            Answer::Parted => write!(f, "parted"),
            Answer::Swept(done) => write!(f, "{done}"),
            Answer::Stopped => write!(f, "stopped"),
            Answer::Shown(shown) => write!(f, "{shown}"),
        }
    }
}

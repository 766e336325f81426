// The answer to a frame, in words.
ghost use Rattle.std.specs.Prelude.{Some, map, [], ◌∷◌};
ghost use Rattle.std.specs.Fmt.{WritesOnOk};
ghost use Rattle.std.specs.List.{flat_map};
ghost use Rattle.dayfile.specs.Files.{entry_of};
ghost use Rattle.digest.specs.Hex.{hex};
ghost use Rattle.readdays.specs.Texts.{answer_text, file_text};

use crate::answer::Answer;
use dayfile::FileEntry;
use std::fmt;
use store::write_each;

#[tactic(auto, using(crate::proofs::Digits::byte_digits))]
fn write_byte<W: fmt::Write>(byte: u8, f: &mut fmt::Formatter<W>) -> fmt::Result
    ensures { WritesOnOk W.Write.write_str_gives f.old result (hex (byte ∷ [])) f.new }
{
    write!(f, "{byte:02x}")
}

// Two digits for each byte.
fn write_digits<W: fmt::Write>(bytes: &[u8], f: &mut fmt::Formatter<W>) -> fmt::Result
    ensures { WritesOnOk W.Write.write_str_gives f.old result (hex bytes.now) f.new }
{
    for byte in bytes {
        write_byte(*byte, f)?;
    }
    Ok(())
}

// A file: its path, its length, how many pieces it has, and their names.
fn write_file<W: fmt::Write>(file: &FileEntry, f: &mut fmt::Formatter<W>) -> fmt::Result
    ensures { WritesOnOk W.Write.write_str_gives f.old result (file_text (entry_of file.now)) f.new }
{
    write!(f, " ")?;
    write_digits(file.path.as_bytes(), f)?;
    write!(f, " {} {}", file.length, file.pieces.len())?;
    write_each(" ", &file.pieces, "", f)
}

fn write_files<W: fmt::Write>(files: &[FileEntry], f: &mut fmt::Formatter<W>) -> fmt::Result
    ensures { WritesOnOk W.Write.write_str_gives f.old result (flat_map file_text (map entry_of files.now)) f.new }
{
    for file in files {
        write_file(file, f)?;
    }
    Ok(())
}

impl fmt::Display for Answer {
    ghost output = { λ a. Some (answer_text a) };

    fn fmt<W: fmt::Write>(&self, f: &mut fmt::Formatter<W>) -> fmt::Result {
        match self {
            Answer::Refused => write!(f, "refused"),
            Answer::Day(day) => {
                write!(f, "day")?;
                write_files(day.files(), f)
            }
        }
    }
}

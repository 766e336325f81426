// Writes a day file.
ghost use Rattle.std.specs.Prelude.{◌≡◌, ◌≤◌, ◌++◌, length, MatchResult, OnOk};
ghost use Rattle.cutting.specs.declared.refusal.Refusal.TheVariants.{NoMemory};
ghost use Rattle.dayfile.specs.Days.{entry_of, files_of};
ghost use Rattle.dayfile.specs.Form.{day_file, entry_bytes};
ghost use Rattle.dayfile.specs.Limits.{most_pieces};

use crate::day::Day;
use crate::entry::FileEntry;
use cutting::Refusal;
use digest::sha256;
use std::alloc::{AllocError, Global};
use store::DayName;

// Writes a file behind what was written.
fn write_entry(out: &mut Vec<u8>, file: &FileEntry) -> Result<(), AllocError>
    requires { length file.now.pieces.items ≤ most_pieces }
    ensures { OnOk result (out.new.items ≡ out.old.items ++ entry_bytes (entry_of file.now)) }
{
    let path = file.path.as_bytes();
    out.push(path.len() as u8)?;
    out.extend_from_slice(path)?;
    out.extend_from_slice(&file.length.to_be_bytes())?;
    out.extend_from_slice(&(file.pieces.len() as u16).to_be_bytes())?;
    for name in &file.pieces {
        out.extend_from_slice(name.as_bytes())?;
    }
    Ok(())
}

// The day file of a day.
pub fn write(heap: Global, name: DayName, day: &Day) -> Result<Vec<u8>, Refusal>
    ensures { MatchResult result (λ v. v.items ≡ day_file name (files_of day.now)) (λ r. r ≡ NoMemory) }
{
    let mut out = Vec::new(heap);
    out.push(68)?;
    out.push(name.machine)?;
    out.extend_from_slice(&name.number.to_be_bytes())?;
    out.extend_from_slice(&(day.files.len() as u16).to_be_bytes())?;
    for file in &day.files {
        write_entry(&mut out, file)?;
    }
    let digest = sha256(&out);
    out.extend_from_slice(digest.as_bytes())?;
    Ok(out)
}

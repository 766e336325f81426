// A day under way.
ghost use Rattle.std.specs.Prelude.{◌≡◌, ◌<◌, ◌≤◌, ◌^◌, length, map, IfErr, IfOk, MatchResult};
ghost use Rattle.cutting.specs.declared.refusal.Refusal.TheVariants.{NoMemory};
ghost use Rattle.std.specs.List.{concat};
ghost use Rattle.cutting.specs.Results.{contents};
ghost use Rattle.dayfile.specs.Files.{entry_of};
ghost use Rattle.days.specs.Machines.{work_of};
ghost use Rattle.cutting.specs.Promise.{Promise};
ghost use Rattle.cutting.specs.Rule.{most_in_file};
ghost use Rattle.digest.specs.Digests.{digest_of};
ghost use Rattle.days.specs.Steps.{AddsCut, DayAdds, DayNamed, DayRaises, DaySees, HaveRoom, entry, place_path};
ghost use Rattle.store.specs.State.{most_in_piece};

use crate::done::{Added, Done};
use crate::seeing::see_file;
use cutting::Refusal;
use dayfile::{Day, FileEntry, Path, write};
use digest::{sha256, sha256_each};
use std::alloc::Global;
use store::{DayName, Store};

// No piece of a file has more bytes.
const MOST_IN_PIECE: usize = 65_536;

// What a machine makes.
#[derive(Drop)]
pub enum Making {
    Nothing,
    Day(Underway),
}

#[derive(Drop)]
pub struct Underway {
    // the files that were added
    pub(crate) day: Day,
    // once it is raised
    pub(crate) number: Option<u32>,
}

// The path of a file by its place in a day: four decimal digits.
fn place_path(heap: Global, place: usize) -> Result<Path, Refusal>
    ensures { MatchResult result (λ p. p.bytes.items ≡ place_path place) (λ r. r ≡ NoMemory) }
{
    let digit = |unit: usize| b'0' + (place / unit % 10) as u8;
    Path::new(heap, &[digit(1000), digit(100), digit(10), digit(1)])
}

// A file of these pieces, which have so many bytes together.
#[tactic(auto, using(crate::proofs::Places::names_are))]
fn file_entry(heap: Global, path: Path, size: u32, pieces: &[&[u8]]) -> Result<FileEntry, Refusal>
    requires { size ≡ length (concat (contents pieces.now)) }
    ensures entry { IfOk result (λ e. entry_of e ≡ entry path.bytes.items (contents pieces.now)) }
    ensures names { IfOk result (λ e. e.pieces.items ≡ map digest_of (contents pieces.now)) }
    ensures refused { IfErr result (λ r. r ≡ NoMemory) }
{
    Ok(FileEntry {
        path,
        length: size,
        pieces: sha256_each(heap, pieces)?,
    })
}

impl Underway {
    // Adds a file of these pieces, which have so many bytes together, once each of them is seen to. There is room for each in the buffer.
    pub(crate) fn add<S: Store>(
        &mut self,
        heap: Global,
        machine: u8,
        store: &mut S,
        path: Path,
        size: u32,
        pieces: &[&[u8]],
        buffer: &mut [u8],
    ) -> Result<Added, Refusal>
        requires size { size ≡ length (concat (contents pieces.now)) }
        requires room { HaveRoom (contents pieces.now) (length buffer.now) }
        ensures { DayAdds S.does machine path.bytes.items (contents pieces.now) (work_of self.old) store.old result (work_of self.new) store.new }
    {
        let entry = file_entry(heap, path, size, pieces)?;
        self.day.check(&entry)?;
        if self.number.is_some() {
            return Err(Refusal::HasNumber);
        }
        let mut written = 0;
        see_file(store, machine, &entry.pieces, pieces, buffer, &mut written)?;
        self.day.append(entry)?;
        Ok(Added {
            pieces: pieces.len(),
            written,
        })
    }

    // Adds a whole file, which is cut into these pieces.
    pub(crate) fn add_file<S: Store>(
        &mut self,
        heap: Global,
        machine: u8,
        store: &mut S,
        path: Path,
        file: &[u8],
        pieces: &[&[u8]],
    ) -> Result<Done, Refusal>
        requires short { length file.now ≤ most_in_file }
        requires cut { Promise file.now (contents pieces.now) }
        ensures { AddsCut S.does machine path.bytes.items file.now (work_of self.old) store.old result (work_of self.new) store.new }
    {
        let mut buffer = vec![in heap; 0; MOST_IN_PIECE]?;
        let size = file.len() as u32;
        let added = self.add(heap, machine, store, path, size, pieces, &mut buffer)?;
        Ok(Done::Added(added))
    }

    // Adds a file that is one piece.
    pub(crate) fn see<S: Store>(
        &mut self,
        heap: Global,
        machine: u8,
        store: &mut S,
        piece: &[u8],
    ) -> Result<Done, Refusal>
        requires { length piece.now ≤ most_in_piece }
        ensures { DaySees S.does machine piece.now (work_of self.old) store.old result (work_of self.new) store.new }
    {
        let path = place_path(heap, self.day.files().len() + 1)?;
        let mut buffer = vec![in heap; 0; piece.len()]?;
        let size = piece.len() as u32;
        let added = self.add(heap, machine, store, path, size, &[piece], &mut buffer)?;
        let name = sha256(piece);
        if added.written == 0 {
            Ok(Done::Found(name))
        } else {
            Ok(Done::Written(name))
        }
    }

    pub(crate) fn raise<S: Store>(&mut self, machine: u8, store: &mut S) -> Result<Done, Refusal>
        ensures { DayRaises S.does machine (work_of self.old) store.old result (work_of self.new) store.new }
    {
        if self.number.is_some() {
            return Err(Refusal::HasNumber);
        }
        let highest = store.highest(machine)?;
        let number = highest.checked_add(1).ok_or(Refusal::LastNumber)?;
        store.raise(machine, number)?;
        self.number = Some(number);
        Ok(Done::Raised(number))
    }

    // The number under which it is named.
    pub(crate) fn name<S: Store>(
        &self,
        heap: Global,
        machine: u8,
        store: &mut S,
    ) -> Result<u32, Refusal>
        ensures { DayNamed S.does machine (work_of self.now) store.old result store.new }
    {
        let number = self.number.ok_or(Refusal::HasNoNumber)?;
        let name = DayName { machine, number };
        let file = write(heap, name, &self.day)?;
        store.name_day(name, &file)?;
        Ok(number)
    }

    // The files that were added.
    pub fn files(&self) -> &[FileEntry]
        ensures { map entry_of result.now ≡ (work_of self.now).files }
    {
        self.day.files()
    }

    // Its number, once that is raised.
    pub fn number(&self) -> Option<u32>
        ensures { result ≡ (work_of self.now).number }
    {
        self.number
    }
}

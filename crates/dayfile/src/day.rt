// The files of a day.
ghost use Rattle.std.specs.Prelude.{map};
ghost use Rattle.dayfile.specs.Files.{entry_of};
ghost use Rattle.dayfile.specs.Limits.{AreFiles, AreFiles-prop};

use crate::entry::FileEntry;
use cutting::Refusal;
use digest::Digest;
use std::alloc::Global;
use std::cmp::Ordering;

// A day has at most so many files.
const MOST_FILES: usize = 4_096;

#[derive(Drop)]
pub struct Day {
    pub(crate) files: Vec<FileEntry>,
    pub ghost fits: { AreFiles (map entry_of files.items) } by { AreFiles-prop (map entry_of files.items) },
}

impl Day {
    ghost use Rattle.std.specs.Prelude.{◌≡◌, [], ◌∷◌, ◌++◌, Contains, IfErr, IfSome, IsSomeAnd, MatchBool, MatchResult, OnOk};
    ghost use Rattle.dayfile.specs.Adding.{IsAbove, IsNotAbove, IsNotAdded, Misfits};
    ghost use Rattle.cutting.specs.declared.refusal.Refusal.TheVariants.{NoMemory};
    ghost use Rattle.dayfile.specs.Days.{Entry, files_of, names_of};

    // A day of no files.
    #[tactic(auto, using(crate::proofs::Rising::no_files))]
    pub fn new(heap: Global) -> Day
        ensures { files_of result ≡ [] }
    {
        Day {
            files: Vec::new(heap),
        }
    }

    pub fn files(&self) -> &[FileEntry]
        ensures { map entry_of result.now ≡ files_of self.now }
    {
        &self.files
    }

    // Is the last path, if there is one, below that of a file?
    fn is_below(&self, entry: &FileEntry) -> bool
        ensures { MatchBool result (IsAbove (files_of self.now) (entry_of entry.now)) (IsNotAbove (files_of self.now) (entry_of entry.now)) }
    {
        let Some(last) = self.files.last() else {
            return true;
        };
        last.path.as_bytes().cmp(entry.path.as_bytes()) == Ordering::Less
    }

    // May a file follow these?
    #[tactic(auto, using(crate::proofs::Rising::may_follow))]
    pub fn check(&self, entry: &FileEntry) -> Result<(), Refusal>
        ensures { MatchResult result (λ _. AreFiles (files_of self.now ++ entry_of entry.now ∷ [])) (Misfits (files_of self.now) (entry_of entry.now)) }
    {
        entry.check()?;
        if self.files.len() >= MOST_FILES {
            return Err(Refusal::TooManyFiles);
        }
        if !self.is_below(entry) {
            return Err(Refusal::PathNotAbove);
        }
        Ok(())
    }

    // A file that was found to fit follows these. Where there is no memory, nothing is changed.
    pub fn append(&mut self, entry: FileEntry) -> Result<(), Refusal>
        requires { AreFiles (files_of self.now ++ entry_of entry ∷ []) }
        ensures { MatchResult result (λ _. files_of self.new ≡ files_of self.old ++ entry_of entry ∷ []) (λ r. (r ≡ NoMemory) × (files_of self.new ≡ files_of self.old)) }
    {
        self.files.push(entry)?;
        Ok(())
    }

    // A file follows these. Where it is refused, or there is no memory, nothing is changed.
    pub fn push(&mut self, entry: FileEntry) -> Result<(), Refusal>
        ensures done { OnOk result (files_of self.new ≡ files_of self.old ++ entry_of entry ∷ []) }
        ensures refused { IfErr result (λ r. IsNotAdded (files_of self.old) (entry_of entry) r × (files_of self.new ≡ files_of self.old)) }
    {
        self.check(&entry)?;
        self.append(entry)
    }

    // The names of all pieces of its files, in their order.
    #[tactic(auto, using(crate::proofs::Names::names_are))]
    pub fn names(&self, heap: Global) -> Result<Vec<Digest>, Refusal>
        ensures { MatchResult result (λ v. v.items ≡ names_of (files_of self.now)) (λ r. r ≡ NoMemory) }
    {
        let mut names = Vec::new(heap);
        for file in &self.files {
            names.extend_from_slice(&file.pieces)?;
        }
        Ok(names)
    }

    // The file of this path.
    pub fn find(&self, path: &[u8]) -> Option<&FileEntry>
        ensures found { IfSome result (λ file. Contains (files_of self.now) (entry_of file.now) × ((entry_of file.now).path ≡ path.now)) }
        ensures only { (e : Entry) → Contains (files_of self.now) e → e.path ≡ path.now → IsSomeAnd result (λ file. entry_of file.now ≡ e) }
    {
        self.files.iter().find(|file| file.path.as_bytes() == path)
    }
}

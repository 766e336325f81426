// How much a day has.
ghost use Rattle.std.specs.Prelude.{◌≡◌};
ghost use Rattle.commands.specs.Summaries.{summary_of};

use dayfile::FileEntry;

#[derive(Clone, Copy, Debug, PartialEq, Eq)]
pub struct Summary {
    pub files: usize,
    pub bytes: u64,
    pub pieces: u64,
}

impl Summary {
    // A sum beyond 64 bits would stay at the highest number; the limits of a day keep it far below that.
    pub fn of(files: &[FileEntry]) -> Summary
        ensures { result ≡ summary_of files.now }
    {
        let mut bytes = 0u64;
        let mut pieces = 0u64;
        for file in files {
            bytes = bytes.saturating_add(u64::from(file.length));
            pieces = pieces.saturating_add(file.pieces.len() as u64);
        }
        Summary {
            files: files.len(),
            bytes,
            pieces,
        }
    }
}

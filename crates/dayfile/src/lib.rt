// Day files: the files of a day, each with its path, how many bytes it has, and the names of its pieces.
#![tactic(auto)]

mod day;
mod entry;
mod laws;
mod path;
mod reading;
mod slices;
#[cfg(test)]
mod tests;
mod writing;

pub use day::Day;
pub use entry::FileEntry;
pub use laws::one_form;
pub use path::Path;
pub use reading::{read, read_names};
pub use slices::{fill_file, fill_piece};
pub use writing::write;

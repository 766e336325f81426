// The programs: what each does with its words.
#![tactic(auto)]

mod advice;
mod arguments;
mod asked;
mod back;
mod day;
mod files;
mod go;
mod init;
mod list;
mod list_file;
mod opening;
mod program;
mod quote;
mod running;
mod summary;
mod sweep;
#[cfg(test)]
mod tests;
mod trouble;
mod watched;

pub use program::Program;
pub use running::run;

// The store in a folder of files. Everything that touches the files of a store is here.
#![tactic(auto)]

mod creating;
mod disk;
mod failure;
mod folder;
mod list;
mod requests;
mod whole;

pub use creating::create;
pub use failure::{Failure, Why};
pub use folder::{Folder, Written};
pub use whole::write_whole;

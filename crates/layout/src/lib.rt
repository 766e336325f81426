// What the files of a store in a folder hold, as bytes, and what they are called.
#![tactic(auto)]

mod fault;
mod laws;
mod line;
mod lists;
mod machines;
mod numbers;
mod paths;
mod signed;
mod sweeps;
#[cfg(test)]
mod tests;

pub use fault::{LineFault, MachinesFault};
pub use laws::added_names_are_listed;
pub use lists::{names_in, torn};
pub use machines::{read_machines, write_machines};
pub use numbers::{number_file, read_number};
pub use paths::{
    MACHINES_FILE, OWN_LIST, SWEEP, day_path, days_folder, highest_path, list_path, lock_path,
    piece_path, writing_path,
};
pub use sweeps::{read_sweep, sweep_file};

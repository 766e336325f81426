// What the files of a store are called, from its folder on.
ghost use Rattle.std.specs.Prelude.{◌≡◌, IfOk, string_bytes};
ghost use Rattle.layout.specs.Paths.{day_name, days_name, highest_name, list_name, lock_name, piece_name, writing_name};

use digest::Digest;
use std::alloc::{AllocError, Global};
use store::{DayName, Spot};

// The names that the sweeper has listed.
pub const OWN_LIST: &str = "i/a";

// What the sweeper does.
pub const SWEEP: &str = "s";

// The list of machines.
pub const MACHINES_FILE: &str = "machines";

// A piece, in its place or aside.
pub fn piece_path(heap: Global, spot: Spot, name: Digest) -> Result<String, AllocError>
    ensures { IfOk result (λ t. string_bytes t ≡ piece_name spot name) }
{
    match spot {
        Spot::Place => format!(in heap; "p/{name}"),
        Spot::Aside => format!(in heap; "a/{name}"),
    }
}

// The names that a machine has listed.
pub fn list_path(heap: Global, machine: u8) -> Result<String, AllocError>
    ensures { IfOk result (λ t. string_bytes t ≡ list_name machine) }
{
    format!(in heap; "i/{machine}")
}

// The highest day number that a machine ever raised.
pub fn highest_path(heap: Global, machine: u8) -> Result<String, AllocError>
    ensures { IfOk result (λ t. string_bytes t ≡ highest_name machine) }
{
    format!(in heap; "m/{machine}")
}

// The folder of a machine's days.
pub fn days_folder(heap: Global, machine: u8) -> Result<String, AllocError>
    ensures { IfOk result (λ t. string_bytes t ≡ days_name machine) }
{
    format!(in heap; "d/{machine}")
}

// A day.
pub fn day_path(heap: Global, day: DayName) -> Result<String, AllocError>
    ensures { IfOk result (λ t. string_bytes t ≡ day_name day) }
{
    let machine = day.machine;
    let number = day.number;
    format!(in heap; "d/{machine}/{number}")
}

// What a machine, or the sweeper where there is none, is writing and has not named yet.
pub fn writing_path(heap: Global, machine: Option<u8>) -> Result<String, AllocError>
    ensures { IfOk result (λ t. string_bytes t ≡ writing_name machine) }
{
    match machine {
        Some(machine) => format!(in heap; "t/{machine}"),
        None => String::from_str(heap, "t/s"),
    }
}

// What is held while a program works as a machine, or as the sweeper where there is none.
pub fn lock_path(heap: Global, machine: Option<u8>) -> Result<String, AllocError>
    ensures { IfOk result (λ t. string_bytes t ≡ lock_name machine) }
{
    match machine {
        Some(machine) => format!(in heap; "t/{machine}.lock"),
        None => String::from_str(heap, "t/s.lock"),
    }
}

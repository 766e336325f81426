// What is the matter, and what to do now, in words.
ghost use Rattle.std.specs.Prelude.{◌≡◌};
ghost use Rattle.commands.specs.Tellings.{broken};

use crate::arguments::Fault;
use crate::list_file::LineFault;
use crate::program::Program;
use cutting::Refusal;

// Why a call is refused.
pub fn why(refusal: Refusal) -> &'static str {
    match refusal {
        Refusal::FileTooLong => "a file has at most 16777216 bytes",
        Refusal::PieceTooLong => "a piece has at most 65536 bytes",
        Refusal::PieceEmpty => "a piece has at least one byte",
        Refusal::BadPath => "a path has from 1 to 255 bytes",
        Refusal::PathNotAbove => "a path must be above the one before it, byte by byte",
        Refusal::TooManyFiles => "a day has at most 4096 files",
        Refusal::Unknown => "there is none such",
        Refusal::BadDay => "it is damaged or not there",
        Refusal::DayIsThere => "there is a day of that number already",
        Refusal::MakesDay => "another program makes a day of it",
        Refusal::MakesNone | Refusal::HasNumber | Refusal::HasNoNumber => "it is not at that point",
        Refusal::NotAtThatPoint => "another one is running",
        Refusal::Unfinished => "a machine has finished no day since",
        Refusal::TooManyNames => "all lists together have at most 262144 names",
        Refusal::LastNumber => "a day number is at most 4294967295",
        Refusal::NoMemory => "there is not enough memory",
        Refusal::ReadOrWrite => "a read or a write failed",
    }
}

// What to do now about what is not there.
fn about_unknown(program: Program) -> &'static str {
    match program {
        Program::Init => "machines have numbers from 0 to 63",
        Program::Day =>
            "add it to the list of machines, the file machines in the store, or name another",
        Program::List | Program::Go => "list without further words shows the days there are",
        Program::Back => "list shows the days there are, and the files of each",
        Program::Sweep => "run it again",
    }
}

// What to do now about what is damaged.
fn about_damage(program: Program) -> &'static str {
    match program {
        Program::Sweep =>
            "restore it from a copy of the store, or let go each day that has it; till then nothing is swept",
        _ => "restore it from a copy of the store, or have the file back from another day",
    }
}

// What to do now about a refusal.
pub fn advice(program: Program, refusal: Refusal) -> &'static str {
    match refusal {
        Refusal::FileTooLong => "take it off the list, or split it",
        Refusal::BadPath => "take the line off the list, or rename the file",
        Refusal::PathNotAbove =>
            "take ./ off all lines, and sort them by LC_ALL=C sort; a line that is there twice may be part of a name with a newline",
        Refusal::TooManyFiles => "name fewer files, and the others in the list of another machine",
        Refusal::Unknown => about_unknown(program),
        Refusal::BadDay => about_damage(program),
        Refusal::DayIsThere => "run it again: it takes the next number",
        Refusal::MakesDay | Refusal::NotAtThatPoint => "wait till that has ended, and run it again",
        Refusal::TooManyNames => "begin a new store",
        Refusal::LastNumber => "make the days of another machine",
        Refusal::NoMemory => "end other programs, and run it again",
        Refusal::PieceTooLong
        | Refusal::PieceEmpty
        | Refusal::MakesNone
        | Refusal::HasNumber
        | Refusal::HasNoNumber
        | Refusal::Unfinished
        | Refusal::ReadOrWrite => "run it again",
    }
}

// The refusal that a fault of a line is, if it breaks a rule.
pub fn refusal_of(fault: LineFault) -> Option<Refusal>
    ensures { result ≡ broken fault }
{
    match fault {
        LineFault::BadPath => Some(Refusal::BadPath),
        LineFault::TooManyFiles => Some(Refusal::TooManyFiles),
        LineFault::NotAbove => Some(Refusal::PathNotAbove),
        LineFault::NoText => None,
        LineFault::NoMemory => Some(Refusal::NoMemory),
    }
}

// What is wrong with the words of a program.
pub fn why_wrong(fault: Fault) -> &'static str {
    match fault {
        Fault::NoOption => "there is no such option",
        Fault::StoreTwice => "the store is named a second time",
        Fault::NoFolder => "no folder follows it",
        Fault::WrongCount => "there are too few of them, or too many",
        Fault::NoNumber => "it is no number in decimal digits, without leading zeros",
        Fault::NoMachine => "there is no such machine",
        Fault::NoMore => "it names no machine, or one that is named already",
        Fault::NoMemory => "there is not enough memory",
    }
}

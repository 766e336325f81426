// The line that says why a program did not do what it was asked.
ghost use Rattle.std.specs.Prelude.{◌≡◌, None};
ghost use Rattle.cutting.specs.Refusals.{number_of};
ghost use Rattle.commands.specs.Tellings.{number_told, place_named};

use crate::advice::{advice, why};
use crate::asked::Place;
use crate::program::Program;
use crate::quote::Shown;
use crate::watched::Last;
use cutting::Refusal;
use digest::Digest;
use folder::Failure;
use std::alloc::{AllocError, Global};
use std::{fmt, io};
use store::DayName;

// What it concerns.
#[derive(Drop)]
pub enum What {
    Arguments,
    Word(String),
    // a word that is no text
    Bytes(Vec<u8>),
    Store,
    Machine(u64),
    Day(Place),
    // a file of a day
    Path(String, Place),
    Piece(Digest),
    // a file that is to be read
    File(String),
    // the list of files
    List(String),
    // a line of the list, with its number
    Line(usize, Vec<u8>),
    Sweep,
    Output,
    Memory,
}

// What is the matter.
#[derive(Drop)]
pub enum Why {
    Words(&'static str),
    System(io::Error),
}

#[derive(Drop)]
pub struct Told {
    pub number: Option<u8>,
    pub what: What,
    pub why: Why,
    pub advice: &'static str,
}

#[derive(Drop)]
pub enum Trouble {
    Told(Told),
    // a store says so itself
    Failed(String),
}

impl fmt::Display for What {
    fn fmt<W: fmt::Write>(&self, f: &mut fmt::Formatter<W>) -> fmt::Result {
        match self {
            What::Arguments => write!(f, "the arguments"),
            What::Word(word) => write!(f, "'{}'", Shown(word.as_bytes())),
            What::Bytes(word) => write!(f, "'{}'", Shown(word)),
            What::Store => write!(f, "the store"),
            What::Machine(machine) => write!(f, "machine {machine}"),
            What::Day(day) => write!(f, "day {} of machine {}", day.number, day.machine),
            What::Path(path, day) => write!(
                f,
                "{} of day {} of machine {}",
                Shown(path.as_bytes()),
                day.number,
                day.machine
            ),
            What::Piece(name) => write!(f, "piece {name}"),
            What::File(path) => write!(f, "{}", Shown(path.as_bytes())),
            What::List(path) => write!(f, "the list {}", Shown(path.as_bytes())),
            What::Line(number, line) => {
                write!(f, "line {number} of the list, '{}'", Shown(line))
            }
            What::Sweep => write!(f, "the sweep"),
            What::Output => write!(f, "standard output"),
            What::Memory => write!(f, "memory"),
        }
    }
}

impl fmt::Display for Why {
    fn fmt<W: fmt::Write>(&self, f: &mut fmt::Formatter<W>) -> fmt::Result {
        match self {
            Why::Words(words) => write!(f, "{words}"),
            Why::System(error) => write!(f, "{error}"),
        }
    }
}

impl fmt::Display for Trouble {
    fn fmt<W: fmt::Write>(&self, f: &mut fmt::Formatter<W>) -> fmt::Result {
        match self {
            Trouble::Told(told) => {
                if let Some(number) = told.number {
                    write!(f, "refused by {number}: ")?;
                }
                write!(f, "{}: {}; {}", told.what, told.why, told.advice)
            }
            Trouble::Failed(text) => write!(f, "{}", Shown(text.as_bytes())),
        }
    }
}

impl Trouble {
    // No rule was broken.
    pub fn new(what: What, why: Why, advice: &'static str) -> Trouble
        ensures { number_told result ≡ None }
    {
        Trouble::Told(Told {
            number: None,
            what,
            why,
            advice,
        })
    }

    // By its number, if it has one.
    pub fn refused(program: Program, refusal: Refusal, what: What) -> Trouble
        ensures { number_told result ≡ number_of refusal }
    {
        Trouble::Told(Told {
            number: refusal.number(),
            what,
            why: Why::Words(why(refusal)),
            advice: advice(program, refusal),
        })
    }

    pub fn failed(heap: Global, failure: &Failure) -> Trouble
        ensures { number_told result ≡ None }
    {
        match failure.to_string(heap) {
            Ok(text) => Trouble::Failed(text),
            Err(e) => Trouble::from(e),
        }
    }

    // What was asked is done, but it cannot be said.
    pub fn output(error: io::Error) -> Trouble
        ensures { number_told result ≡ None }
    {
        Trouble::new(
            What::Output,
            Why::System(error),
            "what was asked is done; see where the output goes",
        )
    }
}

impl From<AllocError> for Trouble {
    ghost from_gives = { λ _ t. number_told t ≡ None };

    fn from(_e: AllocError) -> Trouble {
        let refusal = Refusal::NoMemory;
        Trouble::new(
            What::Memory,
            Why::Words(why(refusal)),
            advice(Program::Day, refusal),
        )
    }
}

pub fn place_of(day: DayName) -> Place
    ensures { result ≡ place_named day }
{
    Place {
        machine: u64::from(day.machine),
        number: u64::from(day.number),
    }
}

// The day or the piece that was asked for last.
fn asked_for(last: Last, other: What) -> What {
    match last {
        Last::Day(day) => What::Day(place_of(day)),
        Last::Piece(name) => What::Piece(name),
        Last::Other => other,
    }
}

// What a refusal concerns: what is damaged or there already, as it was asked for last, or else this.
pub fn concerned(refusal: Refusal, last: Last, other: What) -> What {
    match refusal {
        Refusal::BadDay | Refusal::DayIsThere => asked_for(last, other),
        _ => other,
    }
}

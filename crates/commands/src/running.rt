// Does what a program is asked for.
use crate::advice::why_wrong;
use crate::arguments::{Fault, Given, Wrong, read, wants_help};
use crate::asked::{Asked, what_is_asked};
use crate::back::back;
use crate::day::day;
use crate::go::go;
use crate::init::init;
use crate::list::{list_days, list_files};
use crate::opening::open;
use crate::program::{Help, Program};
use crate::sweep::sweep;
use crate::trouble::{Told, Trouble, What, Why};
use cutting::Refusal;
use std::alloc::{AllocError, Global};
use std::env::FillError;
use std::fs;
use std::process::ExitCode;
use std::rt::Env;

// No longer word is taken; Linux hands over none.
const MOST_IN_WORD: usize = 131_072;

// The word that the program is called with at this place, where 0 is its own name.
fn word_at(rt: &HostRuntime, place: usize, buffer: &mut [u8]) -> Result<Option<Vec<u8>>, Trouble> {
    match rt.arg(place, buffer) {
        Ok(length) => Ok(Some(Vec::from_slice(rt.alloc(), &buffer[..length])?)),
        Err(FillError::NotPresent) => Ok(None),
        Err(FillError::TooLong) => {
            let why = Why::Words("one has more than 131072 bytes");
            Err(Trouble::new(What::Arguments, why, "make it shorter"))
        }
    }
}

// The words that the program is called with, without its own name.
fn words(rt: &HostRuntime) -> Result<Vec<Vec<u8>>, Trouble> {
    let mut buffer = vec![in rt.alloc(); 0; MOST_IN_WORD]?;
    let mut words = Vec::new(rt.alloc());
    for place in 1..usize::MAX {
        let Some(word) = word_at(rt, place, &mut buffer)? else {
            break;
        };
        words.push(word).map_err(AllocError::from)?;
    }
    Ok(words)
}

// They have to be text.
fn texts(heap: Global, words: &[Vec<u8>]) -> Result<Vec<&str>, Trouble> {
    let mut texts = Vec::new(heap);
    for word in words {
        match str::from_utf8(word) {
            Ok(text) => texts.push(text).map_err(AllocError::from)?,
            Err(_) => return Err(no_text(Vec::from_slice(heap, word)?)),
        }
    }
    Ok(texts)
}

// What is said of words that are not those of the program.
fn wrong(heap: Global, wrong: Wrong<'_>) -> Trouble {
    let what = match wrong.fault {
        Fault::WrongCount => What::Arguments,
        Fault::NoMemory => What::Memory,
        _ => match String::from_str(heap, wrong.word) {
            Ok(word) => What::Word(word),
            Err(e) => return Trouble::from(e),
        },
    };
    let number = match wrong.fault {
        Fault::NoMachine => Refusal::Unknown.number(),
        _ => None,
    };
    Trouble::Told(Told {
        number,
        what,
        why: Why::Words(why_wrong(wrong.fault)),
        advice: "call it with --help, which says how",
    })
}

fn no_text(word: Vec<u8>) -> Trouble {
    let why = Why::Words("it is not UTF-8");
    Trouble::new(What::Bytes(word), why, "give it a word of UTF-8")
}

// Does it over the store.
fn over_store(rt: &HostRuntime, given: &Given, asked: Asked) -> Result<(), Trouble> {
    let mut store = open(rt, given.folder)?;
    match asked {
        Asked::Init(_) => Ok(()),
        Asked::Day(machine, list) => { day(rt, &mut store, given.progress, machine, list) },
        Asked::Days => list_days(rt, &mut store),
        Asked::Files(place) => list_files(rt, &mut store, place),
        Asked::Back(place, path, to) => back(rt, &mut store, place, path, to),
        Asked::Go(place) => go(rt, &mut store, place),
        Asked::Sweep => sweep(rt, &mut store, given.progress),
    }
}

fn act(rt: &HostRuntime, program: Program) -> Result<(), Trouble> {
    let heap = rt.alloc();
    let words = words(rt)?;
    if wants_help(&words) {
        return println!(rt; "{}", Help(program)).map_err(Trouble::output);
    }
    let words = texts(heap, &words)?;
    let given = read(heap, program.tells(), &words).map_err(|e| wrong(heap, e))?;
    let asked = what_is_asked(heap, program, &given.arguments).map_err(|e| wrong(heap, e))?;
    match asked {
        Asked::Init(machines) => init(rt, given.folder, &machines),
        other => over_store(rt, &given, other),
    }
}

// Of streams that were closed: so that no file of a store is opened in their place, and written into.
const NOTHING: &str = "/dev/null";

// Does what a program is asked for, and says how it went.
pub fn run(rt: &HostRuntime, program: Program) -> ExitCode {
    let _input = fs::open(rt, NOTHING);
    let _output = fs::open(rt, NOTHING);
    let _errors = fs::open(rt, NOTHING);
    match act(rt, program) {
        Ok(()) => ExitCode::SUCCESS,
        Err(trouble) => {
            let _ = eprintln!(rt; "{program}: {trouble}");
            ExitCode::FAILURE
        }
    }
}

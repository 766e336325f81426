// What a program is asked for by its arguments.
ghost use Rattle.std.specs.Prelude.{◌≡◌, None, Some, MatchResult, map};
ghost use Rattle.commands.specs.declared.arguments.Fault.TheVariants as fault;
ghost use Rattle.commands.specs.Asks.{Asks, IsNoNumber, Misasks};
ghost use Rattle.commands.specs.Lines.{path_of};
ghost use Rattle.commands.specs.Numbers.{NumberRead, digit};
ghost use Rattle.commands.specs.Places.{day_by, machine_by};

use crate::arguments::{Fault, Wrong};
use crate::program::Program;
use cutting::Refusal;
use std::alloc::Global;
use store::{DayName, MACHINES};

#[derive(Drop)]
pub enum Asked<'a> {
    // a new store with these machines on its list
    Init(Vec<u8>),
    // a day of this machine, of the files in this list
    Day(u64, &'a str),
    // the days there are
    Days,
    // the files of a day
    Files(Place),
    // the file of this path, to be written there
    Back(Place, &'a str, &'a str),
    Go(Place),
    Sweep,
}

// A machine and a number as they were read: maybe of no day that can be.
#[derive(Clone, Copy, Debug, PartialEq, Eq)]
pub struct Place {
    pub machine: u64,
    pub number: u64,
}

// A larger number is read as this one: no machine and no day has it.
const TOO_LARGE: u64 = 4_294_967_296;

fn is_digit(c: u8) -> bool
    ensures { result ≡ digit c }
{
    matches!(c, b'0'..=b'9')
}

// The number that decimal digits spell, without leading zeros.
#[tactic(auto, using(crate::proofs::Values::value_more, crate::proofs::Values::min_more))]
fn number(word: &[u8]) -> Option<u64>
    ensures { NumberRead word.now result }
{
    if word.is_empty() || (word.len() > 1 && word[0] == b'0') {
        return None;
    }
    let mut number = 0;
    for c in word {
        if !is_digit(*c) {
            return None;
        }
        number = (number * 10 + u64::from(*c - b'0')).min(TOO_LARGE);
    }
    Some(number)
}

fn number_in<'a>(word: &'a str) -> Result<u64, Wrong<'a>>
    ensures { MatchResult result (λ n. NumberRead word.now (Some n)) (λ e. NumberRead word.now None × (e.word.now ≡ word.now) × (e.fault ≡ fault.NoNumber)) }
{
    let fault = Fault::NoNumber;
    number(word.as_bytes()).ok_or(Wrong { word, fault })
}

fn place_in<'a>(machine: &'a str, number: &'a str) -> Result<Place, Wrong<'a>>
    ensures { MatchResult result (λ at. NumberRead machine.now (Some at.machine) × NumberRead number.now (Some at.number)) (λ e. IsNoNumber machine.now number.now e) }
{
    Ok(Place {
        machine: number_in(machine)?,
        number: number_in(number)?,
    })
}

impl Place {
    // The day of that name, if there can be one.
    pub fn day(self) -> Result<DayName, Refusal>
        ensures { result ≡ day_by self.machine self.number }
    {
        let machine = machine_of(self.machine)?;
        let Ok(number) = u32::try_from(self.number) else {
            return Err(Refusal::Unknown);
        };
        Ok(DayName { machine, number })
    }
}

// The machine of that number, if there can be one.
pub fn machine_of(number: u64) -> Result<u8, Refusal>
    ensures { result ≡ machine_by number }
{
    if number >= u64::from(MACHINES) {
        return Err(Refusal::Unknown);
    }
    Ok(number as u8)
}

// A path without the `./` that may stand before it.
pub fn without_dot(path: &str) -> &str
    ensures { result.now ≡ path_of path.now }
{
    path.strip_prefix("./").unwrap_or(path)
}

// The first and the last machine that a word names: a number, or two with a dash between them.
fn range<'a>(word: &'a str) -> Result<(u64, u64), Wrong<'a>> {
    match word.split_once('-') {
        Some((first, last)) => Ok((number_in(first)?, number_in(last)?)),
        None => {
            let only = number_in(word)?;
            Ok((only, only))
        }
    }
}

// Adds the machines that a word names.
fn add_machines<'a>(machines: &mut Vec<u8>, word: &'a str) -> Result<(), Fault> {
    let (first, last) = range(word).map_err(|wrong| wrong.fault)?;
    if first >= u64::from(MACHINES) || last >= u64::from(MACHINES) {
        return Err(Fault::NoMachine);
    }
    if first > last {
        return Err(Fault::NoMore);
    }
    for machine in first as u8..last as u8 + 1 {
        if machines.contains(&machine) {
            return Err(Fault::NoMore);
        }
        machines.push(machine)?;
    }
    Ok(())
}

fn machines_in<'a>(heap: Global, words: &[&'a str]) -> Result<Vec<u8>, Wrong<'a>> {
    let mut machines = Vec::new(heap);
    for word in words {
        let word = *word;
        add_machines(&mut machines, word).map_err(|fault| Wrong { word, fault })?;
    }
    Ok(machines)
}

// What a program is asked for by these arguments.
pub fn what_is_asked<'a>(
    heap: Global,
    program: Program,
    arguments: &[&'a str],
) -> Result<Asked<'a>, Wrong<'a>>
    ensures { MatchResult result (λ a. Asks program (map (λ w. w.now) arguments.now) a) (λ e. Misasks program (map (λ w. w.now) arguments.now) e) }
{
    match (program, arguments) {
        (Program::Init, [_, ..]) => Ok(Asked::Init(machines_in(heap, arguments)?)),
        (Program::Day, [machine, list]) => Ok(Asked::Day(number_in(machine)?, list)),
        (Program::List, []) => Ok(Asked::Days),
        (Program::List, [machine, number]) => Ok(Asked::Files(place_in(machine, number)?)),
        (Program::Back, [machine, number, path]) => {
            let path = without_dot(path);
            Ok(Asked::Back(place_in(machine, number)?, path, path))
        }
        (Program::Back, [machine, number, path, to]) => {
            Ok(Asked::Back(place_in(machine, number)?, without_dot(path), to))
        }
        (Program::Go, [machine, number]) => Ok(Asked::Go(place_in(machine, number)?)),
        (Program::Sweep, []) => Ok(Asked::Sweep),
        _ => {
            let word = "";
            let fault = Fault::WrongCount;
            Err(Wrong { word, fault })
        }
    }
}

// A line of the script as a step to play.
ghost use Rattle.std.specs.Prelude.{◌≡◌};
ghost use Rattle.rehearsal.specs.Steps.{Alone, BackWords, BytesBehind, FileWords, OfMachine, PairRead, PathRead, ReadAs, StepRead, ThreeNumbers, TwoNumbers};

use crate::name::StepName;
use script::{Fault, FromWord, Message, next_word, one_word, quoted, three_words, two_words};
use std::alloc::Global;
use store::Spot;

#[derive(Drop)]
pub enum Step {
    // the digest of these bytes
    Digest(Message),
    // the pieces of a file of these bytes
    Cut(Message),
    // a machine does something
    Machine(u32, Act),
    // a day of a machine is let go
    LetGo(u32, u32),
    // the file of a path in a day of a machine is had back
    Back(u32, u32, Vec<u8>),
    // what lies under the name of a day of a machine is read
    Bytes(u32, u32),
    // this byte is damaged of what lies there under the name of the piece of these bytes
    FlipPiece(Spot, u32, Message),
    // so is this byte of what lies under the name of a day of a machine
    FlipDay(u32, u32, u32),
    // only so many bytes are left of it
    CutDay(u32, u32, u32),
    // a machine is gone for good
    Part(u32),
    // the sweeper does something
    Sweeper(Move),
    // the sweeper stops, and comes up again
    Stop,
    // what is where
    Show,
}

// What a machine does.
#[derive(Drop)]
pub enum Act {
    Begin,
    // it sees to the piece of these bytes
    See(Message),
    // it adds a file of these bytes, under a path
    File(Vec<u8>, Message),
    Raise,
    Name,
    Break,
}

// What the sweeper does.
#[derive(Clone, Copy)]
pub enum Move {
    Look,
    Aside,
    Note,
    Decide,
    Next,
}

// The machine that a step has behind its name, and nothing more.
fn machine(heap: Global, name: StepName, words: &[u8]) -> Result<u32, Fault>
    ensures { OfMachine name words.now result }
{
    let Some(word) = one_word(words) else {
        return Err(name.wrong_words());
    };
    u32::from_word(heap, word)
}

// A number, and bytes behind it.
fn bytes_behind(heap: Global, name: StepName, words: &[u8]) -> Result<(u32, Message), Fault>
    ensures { BytesBehind name words.now result }
{
    let Some((word, others)) = next_word(words) else {
        return Err(name.wrong_words());
    };
    let number = u32::from_word(heap, word)?;
    Ok((number, Message::read(heap, others)?))
}

// A path as it stands, and bytes behind it.
fn path_and_bytes(heap: Global, path: &[u8], words: &[u8]) -> Result<(Vec<u8>, Message), Fault>
    ensures { PathRead path.now words.now result }
{
    let path = Vec::from_slice(heap, path)?;
    Ok((path, Message::read(heap, words)?))
}

// The machine, the path and the bytes that `file` has.
fn file_words(heap: Global, words: &[u8]) -> Result<(u32, Vec<u8>, Message), Fault>
    ensures { FileWords words.now result }
{
    let Some((machine, others)) = next_word(words) else {
        return Err(StepName::File.wrong_words());
    };
    let Some((path, others)) = next_word(others) else {
        return Err(StepName::File.wrong_words());
    };
    let machine = u32::from_word(heap, machine)?;
    let (path, message) = path_and_bytes(heap, path, others)?;
    Ok((machine, path, message))
}

// The numbers that two words are.
fn pair(heap: Global, one: &[u8], two: &[u8]) -> Result<(u32, u32), Fault>
    ensures { PairRead one.now two.now result }
{
    let one = u32::from_word(heap, one)?;
    Ok((one, u32::from_word(heap, two)?))
}

// Two numbers, and nothing more.
fn two_numbers(heap: Global, name: StepName, words: &[u8]) -> Result<(u32, u32), Fault>
    ensures { TwoNumbers name words.now result }
{
    let Some((one, two)) = two_words(words) else {
        return Err(name.wrong_words());
    };
    pair(heap, one, two)
}

// Three numbers, and nothing more.
fn three_numbers(heap: Global, name: StepName, words: &[u8]) -> Result<(u32, u32, u32), Fault>
    ensures { ThreeNumbers name words.now result }
{
    let Some((one, two, three)) = three_words(words) else {
        return Err(name.wrong_words());
    };
    let (one, two) = pair(heap, one, two)?;
    Ok((one, two, u32::from_word(heap, three)?))
}

// The machine, the number and the path that `back` has.
fn back_words(heap: Global, words: &[u8]) -> Result<(u32, u32, Vec<u8>), Fault>
    ensures { BackWords words.now result }
{
    let Some((machine, number, path)) = three_words(words) else {
        return Err(StepName::Back.wrong_words());
    };
    let (machine, number) = pair(heap, machine, number)?;
    Ok((machine, number, Vec::from_slice(heap, path)?))
}

// This step, which has no words behind its name.
fn alone(step: Step, name: StepName, words: &[u8]) -> Result<Step, Fault>
    ensures { Alone step name words.now result }
{
    if next_word(words).is_some() {
        return Err(name.wrong_words());
    }
    Ok(step)
}

impl Step {
    // None for a line without words, and for a comment.
    pub fn read(heap: Global, line: &[u8]) -> Result<Option<Step>, Fault>
        ensures { StepRead line.now result }
    {
        let Some((word, others)) = next_word(line) else {
            return Ok(None);
        };
        if word[0] == b'#' {
            return Ok(None);
        }
        let Some(name) = StepName::called(word) else {
            return Err(Fault::UnknownStep(quoted(heap, word)?));
        };
        Ok(Some(Step::read_as(heap, name, others)?))
    }

    // The step of this name that has these words.
    fn read_as(heap: Global, name: StepName, words: &[u8]) -> Result<Step, Fault>
        ensures { ReadAs name words.now result }
    {
        match name {
            StepName::Digest => Ok(Step::Digest(Message::read(heap, words)?)),
            StepName::Cut => Ok(Step::Cut(Message::read(heap, words)?)),
            StepName::Begin => Ok(Step::Machine(machine(heap, name, words)?, Act::Begin)),
            StepName::See => {
                let (machine, message) = bytes_behind(heap, name, words)?;
                Ok(Step::Machine(machine, Act::See(message)))
            }
            StepName::File => {
                let (machine, path, message) = file_words(heap, words)?;
                Ok(Step::Machine(machine, Act::File(path, message)))
            }
            StepName::Raise => Ok(Step::Machine(machine(heap, name, words)?, Act::Raise)),
            StepName::Name => Ok(Step::Machine(machine(heap, name, words)?, Act::Name)),
            StepName::Break => Ok(Step::Machine(machine(heap, name, words)?, Act::Break)),
            StepName::Go => {
                let (machine, number) = two_numbers(heap, name, words)?;
                Ok(Step::LetGo(machine, number))
            }
            StepName::Back => {
                let (machine, number, path) = back_words(heap, words)?;
                Ok(Step::Back(machine, number, path))
            }
            StepName::Bytes => {
                let (machine, number) = two_numbers(heap, name, words)?;
                Ok(Step::Bytes(machine, number))
            }
            StepName::FlipPlace => {
                let (at, message) = bytes_behind(heap, name, words)?;
                Ok(Step::FlipPiece(Spot::Place, at, message))
            }
            StepName::FlipAside => {
                let (at, message) = bytes_behind(heap, name, words)?;
                Ok(Step::FlipPiece(Spot::Aside, at, message))
            }
            StepName::FlipDay => {
                let (machine, number, at) = three_numbers(heap, name, words)?;
                Ok(Step::FlipDay(machine, number, at))
            }
            StepName::CutDay => {
                let (machine, number, length) = three_numbers(heap, name, words)?;
                Ok(Step::CutDay(machine, number, length))
            }
            StepName::Part => Ok(Step::Part(machine(heap, name, words)?)),
            StepName::Look => alone(Step::Sweeper(Move::Look), name, words),
            StepName::Aside => alone(Step::Sweeper(Move::Aside), name, words),
            StepName::Note => alone(Step::Sweeper(Move::Note), name, words),
            StepName::Decide => alone(Step::Sweeper(Move::Decide), name, words),
            StepName::Next => alone(Step::Sweeper(Move::Next), name, words),
            StepName::Stop => alone(Step::Stop, name, words),
            StepName::Show => alone(Step::Show, name, words),
        }
    }
}

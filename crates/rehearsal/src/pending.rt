// A script that comes in parts: the line that is being read, and the answer to each that ends.
ghost use Rattle.std.specs.Prelude.{◌≡◌, ℕ, ◌+◌, ◌%◌, ◌^◌, ◌<◌, ◌≤◌, List, [], ◌++◌, length, Decides, IfOk, IfErr, IfSome, ◌≢◌, slice_index};
ghost use Rattle.std.specs.Result.{ForOk};
ghost use Rattle.rehearsal.specs.Answers.{chomped, most};
ghost use Rattle.rehearsal.specs.Unkepts.{IsUnkept};

use crate::line::{LineAnswer, LineFault};
use crate::rehearsal::Rehearsal;
use crate::unkept::Unkept;
use crate::unplayed::Unplayed;
use script::Fault;
use std::alloc::Global;
use std::mem;

// A longer line is not kept.
const MOST_IN_LINE: usize = 67_108_864;

#[derive(Drop)]
pub struct Pending {
    heap: Global,
    // how many lines were ended before this one
    ended: u64,
    // the line so far, where it is kept
    line: Result<Vec<u8>, Unkept>,
    // Where it is not, the memory that it had: else there might be none for a line after it.
    spare: Vec<u8>,
    ghost fits: { ForOk line (λ v. length v.items ≤ most) },
}

// The answer to a line that ended in a part of the script, and what follows the line there.
#[derive(Drop)]
pub struct Answered<'a> {
    pub answer: LineAnswer,
    pub after: &'a [u8],
}

// A line without the carriage return that may be its last byte.
fn without_return(line: &[u8]) -> &[u8]
    ensures { result.now ≡ chomped line.now }
{
    line.strip_suffix(b"\r").unwrap_or(line)
}

// Where the first newline is, or how many bytes there are. A number and no Option, and a loop over the places: by `position` long lines took half as long again.
fn line_end(bytes: &[u8]) -> usize
    ensures within { result ≤ length bytes.now }
    ensures before { (k : ℕ) → k < result → slice_index bytes.now k ≢ 10 }
    ensures found { result < length bytes.now → slice_index bytes.now result ≡ 10 }
{
    for i in 0..bytes.len() {
        if bytes[i] == b'\n' {
            return i;
        }
    }
    bytes.len()
}

// Adds bytes to a line that is kept.
fn add(line: &mut Vec<u8>, part: &[u8]) -> Result<(), Unkept>
    requires { length line.old.items ≤ most }
    ensures kept { IfOk result (λ _. (line.new.items ≡ line.old.items ++ part.now) × (length line.new.items ≤ most)) }
    ensures unkept { IfErr result (λ e. IsUnkept e (line.old.items ++ part.now)) }
{
    if part.len() > MOST_IN_LINE.saturating_sub(line.len()) {
        return Err(Unkept::TooLong);
    }
    line.extend_from_slice(part)?;
    Ok(())
}

impl Pending {
    // Which line is being read is said in each contract, since a line that is not kept does not stand in the fields.
    ghost use Rattle.rehearsal.specs.Pendings.{LineAnswers, Holds, TakesIn};

    pub fn new(heap: Global) -> Pending
        ensures ended { result.ended ≡ 0 }
        ensures line { Holds result [] }
    {
        Pending {
            heap,
            ended: 0,
            line: Ok(Vec::new(heap)),
            spare: Vec::new(heap),
        }
    }

    // Adds bytes to the line.
    fn extend(&mut self, part: &[u8])
        ensures ended { self.new.ended ≡ self.old.ended }
        ensures line { (l : List ℕ) → Holds self.old l → Holds self.new (l ++ part.now) }
    {
        if let Ok(line) = &mut self.line
            && let Err(unkept) = add(line, part)
        {
            mem::swap(line, &mut self.spare);
            self.line = Err(unkept);
        }
    }

    // Ends the line, answers it, and begins the next one in the same memory.
    pub fn end(&mut self, rehearsal: &mut Rehearsal) -> LineAnswer
        ensures ended { self.new.ended ≡ (self.old.ended + 1) % 2 ^ 64 }
        ensures answer { (l : List ℕ) → Holds self.old l → LineAnswers self.new.ended l rehearsal.old.world result rehearsal.new.world }
        ensures line { Holds self.new [] }
    {
        let number = self.ended.wrapping_add(1);
        let answer = match &mut self.line {
            Ok(line) => {
                let answer = rehearsal.answer(self.heap, number, without_return(line));
                line.clear();
                answer
            }
            Err(unkept) => {
                let why = Unplayed::Fault(Fault::from(*unkept));
                let mut line = mem::replace(&mut self.spare, Vec::new(self.heap));
                line.clear();
                self.line = Ok(line);
                Err(LineFault { number, why })
            }
        };
        self.ended = number;
        answer
    }

    // Takes in a part of the script up to its first newline, and with it. None where no line ends in the part, which is taken in whole then.
    pub fn take_in<'a>(&mut self, rehearsal: &mut Rehearsal, part: &'a [u8]) -> Option<Answered<'a>>
        ensures shorter { IfSome result (λ a. length a.after.now < length part.now) }
        ensures taken { (l : List ℕ) → Holds self.old l → TakesIn l self.old.ended part.now rehearsal.old.world result self.new rehearsal.new.world }
    {
        let end = line_end(part);
        self.extend(&part[..end]);
        if end == part.len() {
            return None;
        }
        Some(Answered {
            answer: self.end(rehearsal),
            after: &part[end + 1..],
        })
    }

    // Whether a line is begun, of which something was taken in.
    pub fn is_begun(&self) -> bool
        ensures { (l : List ℕ) → Holds self.now l → Decides result (0 < length l) }
    {
        match &self.line {
            Ok(line) => !line.is_empty(),
            Err(_) => true,
        }
    }
}

// From standard input to standard output.
ghost use Rattle.std.specs.Prelude.{IfOk};
ghost use Rattle.readdays.specs.Frames.{EndsFrames};

use crate::answer::Answer;
use crate::frame::Front;
use std::io;
use std::io::{BufRead, BufReader};

// How much of the input is read at a time.
const CHUNK: usize = 65_536;

// How the input ends.
#[derive(Clone, Copy)]
pub enum Ending {
    // behind a frame, or it is empty
    Whole,
    // in the midst of a frame
    CutShort,
}

// Writes a line for each frame that is whole, and answers how many bytes those frames have. At most a part of one follows them.
fn answer_frames(rt: &(impl Print + AllocGlobal), bytes: &[u8]) -> io::Result<usize>
    ensures { IfOk result (λ n. EndsFrames n bytes.now) }
{
    let mut rest = bytes;
    loop {
        match Front::new(rest) {
            Front::Frame(frame, after) => {
                let answer = Answer::new(rt.alloc(), frame)?;
                println!(rt; "{answer}")?;
                rest = after;
            }
            Front::Part => return Ok(bytes.len() - rest.len()),
            Front::TooLong => return Err(io::Error::other("it has more than 64 MiB")),
        }
    }
}

// Writes a line for each frame on standard input, and one where it is cut short. What is kept of the input is never more than a frame and a chunk.
pub fn answer_all(rt: &HostRuntime) -> io::Result<Ending> {
    let heap = rt.alloc();
    let mut input = BufReader::with_capacity(heap, CHUNK, rt.stdin())?;
    let mut pending = Vec::new(heap);
    // Nothing says that an input ends, and every loop has to.
    for _ in 0..u64::MAX {
        let part = input.fill_buf()?;
        let length = part.len();
        if length == 0 {
            break;
        }
        pending.extend_from_slice(part)?;
        input.consume(length);
        let answered = answer_frames(rt, &pending)?;
        // a long frame stays where it is while it grows
        if answered > 0 {
            let left = pending.len() - answered;
            pending.copy_within(answered.., 0);
            pending.truncate(left);
        }
    }
    if pending.is_empty() {
        return Ok(Ending::Whole);
    }
    println!(rt; "cut short")?;
    Ok(Ending::CutShort)
}

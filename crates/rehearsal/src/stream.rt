// From standard input to standard output.
use crate::line::LineAnswer;
use crate::pending::Pending;
use crate::rehearsal::Rehearsal;
use std::io;
use std::io::{BufRead, BufReader};

// How much of the script is read at a time.
const CHUNK: usize = 65_536;

fn write_answer(rt: &impl Print, answer: LineAnswer) -> io::Result<()> {
    match answer {
        Ok(Some(answer)) => println!(rt; "{answer}"),
        Ok(None) => Ok(()),
        Err(fault) => println!(rt; "{fault}"),
    }
}

// Takes in a part of the script, and writes the answer to each line that ends in it.
fn play_part(
    rt: &impl Print,
    rehearsal: &mut Rehearsal,
    pending: &mut Pending,
    part: &[u8],
) -> io::Result<()> {
    let mut rest = part;
    while let Some(answered) = pending.take_in(rehearsal, rest) {
        write_answer(rt, answered.answer)?;
        rest = answered.after;
    }
    Ok(())
}

// Plays the script on standard input, and writes the answers to standard output. A last line without a newline is a line, too.
pub fn play(rt: &HostRuntime) -> io::Result<()> {
    let heap = rt.alloc();
    let mut input = BufReader::with_capacity(heap, CHUNK, rt.stdin())?;
    let Ok(mut rehearsal) = Rehearsal::new(heap) else {
        return Err(io::Error::from(io::ErrorKind::OutOfMemory));
    };
    let mut pending = Pending::new(heap);
    // Nothing says that an input ends, and every loop has to.
    for _ in 0..u64::MAX {
        let part = input.fill_buf()?;
        let length = part.len();
        if length == 0 {
            break;
        }
        play_part(rt, &mut rehearsal, &mut pending, part)?;
        input.consume(length);
    }
    if pending.is_begun() {
        write_answer(rt, pending.end(&mut rehearsal))?;
    }
    Ok(())
}

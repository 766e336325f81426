// The answer to a frame.
use crate::frame::split_name;
use cutting::Refusal;
use dayfile::{Day, read};
use std::alloc::{AllocError, Global};

#[derive(Drop)]
pub enum Answer {
    // the bytes are the file of no day of this name
    Refused,
    // they are the file of this day
    Day(Day),
}

impl Answer {
    ghost use Rattle.readdays.specs.Answers.{Answers};

    // An error only where there is no memory.
    pub fn new(heap: Global, frame: &[u8]) -> Result<Answer, AllocError>
        ensures { Answers frame.now result }
    {
        let Some((name, bytes)) = split_name(frame) else {
            return Ok(Answer::Refused);
        };
        match read(heap, name, bytes) {
            Ok(day) => Ok(Answer::Day(day)),
            Err(Refusal::NoMemory) => Err(AllocError),
            Err(_) => Ok(Answer::Refused),
        }
    }
}

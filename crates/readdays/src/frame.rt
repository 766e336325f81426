// A frame: a length of 4 bytes, high byte first, and then so many bytes, of which the first is a machine, the next four are the number of a day, and the others are to be read as that day's file.
ghost use Rattle.std.specs.Prelude.{◌≡◌};
ghost use Rattle.std.specs.Option.{option_map};
ghost use Rattle.readdays.specs.Frames.{named};

use store::DayName;

// A longer frame is not looked at.
const MOST_IN_FRAME: usize = 67_108_864;

// What some bytes begin with.
#[derive(Clone, Copy)]
pub enum Front<'a> {
    // a frame, and what follows it
    Frame(&'a [u8], &'a [u8]),
    // a part of a frame, or nothing
    Part,
    // the length of a frame that is too long
    TooLong,
}

impl Front<'_> {
    ghost use Rattle.readdays.specs.Frames.{Begins, IsAll};

    pub fn new(bytes: &[u8]) -> Front<'_>
        ensures front { Begins bytes.now result }
        ensures all { IsAll bytes.now result }
    {
        let Some((length, rest)) = bytes.split_first_chunk::<4>() else {
            return Front::Part;
        };
        let length = u32::from_be_bytes(*length) as usize;
        if length > MOST_IN_FRAME {
            return Front::TooLong;
        }
        match rest.split_at_checked(length) {
            Some((frame, after)) => Front::Frame(frame, after),
            None => Front::Part,
        }
    }
}

// The name of a day, and the bytes that are to be its file. None where the frame is too short for a name.
pub fn split_name(frame: &[u8]) -> Option<(DayName, &[u8])>
    ensures { option_map (λ x. (x.0, x.1.now)) result ≡ named frame.now }
{
    let (machine, rest) = frame.split_first()?;
    let (number, bytes) = rest.split_first_chunk::<4>()?;
    let name = DayName {
        machine: *machine,
        number: u32::from_be_bytes(*number),
    };
    Some((name, bytes))
}

// What a machine's step has done, in words.
ghost use Rattle.std.specs.Prelude.{Some};
ghost use Rattle.days.specs.Texts.{done_text};

use digest::Digest;
use std::fmt;

// How many pieces a file has that is added, and how many of them were written.
#[derive(Clone, Copy, Debug, PartialEq, Eq)]
pub struct Added {
    pub pieces: usize,
    pub written: usize,
}

#[derive(Clone, Copy, Debug, PartialEq, Eq)]
pub enum Done {
    // it makes a day now
    Begun,
    // the piece of this name was in its place
    Found(Digest),
    // the piece of this name was written
    Written(Digest),
    // a file is added to the day
    Added(Added),
    // the day has this number
    Raised(u32),
    // the day of this number has its name
    Named(u32),
    BrokenOff,
}

impl fmt::Display for Done {
    ghost output = { λ d. Some (done_text d) };

    fn fmt<W: fmt::Write>(&self, f: &mut fmt::Formatter<W>) -> fmt::Result {
        match self {
            Done::Begun => write!(f, "begun"),
            Done::Found(name) => write!(f, "found {name}"),
            Done::Written(name) => write!(f, "written {name}"),
            Done::Added(added) => { write!(f, "added {}, written {}", added.pieces, added.written) }
            Done::Raised(number) => write!(f, "raised {number}"),
            Done::Named(number) => write!(f, "named {number}"),
            Done::BrokenOff => write!(f, "broken off"),
        }
    }
}

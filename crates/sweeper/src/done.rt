// What a step of the sweeper has done, in words.
ghost use Rattle.std.specs.Prelude.{Some};
ghost use Rattle.sweeper.specs.Texts.{done_text};

use digest::Digest;
use std::fmt;

#[derive(Clone, Copy, Debug, PartialEq, Eq)]
pub enum Done {
    // it has looked, and so many are to be put aside
    Looked(usize),
    // the piece of this name is aside
    PutAside(Digest),
    Noted,
    // so many are to be put back, and so many to be thrown away
    Decided(usize, usize),
    PutBack(Digest),
    ThrownAway(Digest),
    // it rests, after that could not be kept in the step of the last turn; no script comes to that
    Rested,
}

impl fmt::Display for Done {
    ghost output = { λ d. Some (done_text d) };

    fn fmt<W: fmt::Write>(&self, f: &mut fmt::Formatter<W>) -> fmt::Result {
        match self {
            Done::Looked(count) => write!(f, "to put aside {count}"),
            Done::PutAside(name) => write!(f, "put aside {name}"),
            Done::Noted => write!(f, "noted"),
            Done::Decided(back, away) => write!(f, "to put back {back}, to throw away {away}"),
            Done::PutBack(name) => write!(f, "put back {name}"),
            Done::ThrownAway(name) => write!(f, "thrown away {name}"),
            Done::Rested => write!(f, "rested"),
        }
    }
}

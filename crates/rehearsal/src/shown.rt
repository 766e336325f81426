// What `show` answers: what is where.
ghost use Rattle.std.specs.Prelude.{Some};
ghost use Rattle.std.specs.Fmt.{WritesOnOk};
ghost use Rattle.rehearsal.specs.Shows.{kept_text, lists_text, machine_text, machines_text, pieces_text, shown_text, sweeper_text, turns_text};

use digest::Digest;
use std::fmt;
use store::{DayName, Listing, Lying, write_each};

// A day that a machine makes.
#[derive(Drop)]
pub struct ShownDay {
    pub number: Option<u32>,
    pub pieces: Vec<Digest>,
}

// A day of the store: the names of its pieces, or none where what lies under its name is not of the form.
#[derive(Drop)]
pub struct KeptDay {
    pub name: DayName,
    pub pieces: Option<Vec<Digest>>,
}

// A machine, its highest number, whether it is on the list, and what it makes.
#[derive(Drop)]
pub struct ShownMachine {
    pub number: u8,
    pub highest: u32,
    pub on_list: bool,
    pub makes: Option<ShownDay>,
}

// What the sweeper does.
#[derive(Drop)]
pub enum ShownSweeper {
    Rests,
    // these are left
    PutsAside(Vec<Digest>),
    // it has noted these numbers of the machines
    Waits([u32; 4]),
    // these go back, and these away
    Ends(Vec<Digest>, Vec<Digest>),
    DecidesAnew,
}

#[derive(Drop)]
pub struct Shown {
    pub place: Vec<Lying>,
    pub aside: Vec<Lying>,
    pub listed: Vec<Listing>,
    // the names in the sweeper's list
    pub own: Vec<Digest>,
    pub days: Vec<KeptDay>,
    pub machines: Vec<ShownMachine>,
    pub sweeper: ShownSweeper,
}

impl fmt::Display for KeptDay {
    ghost output = { λ d. Some (kept_text d) };

    fn fmt<W: fmt::Write>(&self, f: &mut fmt::Formatter<W>) -> fmt::Result {
        write!(f, "{} {}", self.name.machine, self.name.number)?;
        match &self.pieces {
            Some(pieces) => write_each(" ", pieces, "", f),
            None => write!(f, " damaged"),
        }
    }
}

impl fmt::Display for ShownMachine {
    ghost output = { λ m. Some (machine_text m) };

    fn fmt<W: fmt::Write>(&self, f: &mut fmt::Formatter<W>) -> fmt::Result {
        write!(f, "machine {} {} ", self.number, self.highest)?;
        if !self.on_list {
            return write!(f, "parted");
        }
        let Some(day) = &self.makes else {
            return write!(f, "none");
        };
        match day.number {
            Some(number) => write!(f, "names {number}")?,
            None => write!(f, "makes")?,
        }
        write_each(" ", &day.pieces, "", f)
    }
}

impl fmt::Display for ShownSweeper {
    ghost output = { λ s. Some (sweeper_text s) };

    fn fmt<W: fmt::Write>(&self, f: &mut fmt::Formatter<W>) -> fmt::Result {
        match self {
            ShownSweeper::Rests => write!(f, "sweeper rests"),
            ShownSweeper::PutsAside(left) => {
                write!(f, "sweeper puts aside")?;
                write_each(" ", left, "", f)
            }
            ShownSweeper::Waits(numbers) => {
                write!(f, "sweeper waits")?;
                write_each(" ", numbers.as_slice(), "", f)
            }
            ShownSweeper::Ends(back, away) => write_turns(back, away, f),
            ShownSweeper::DecidesAnew => write!(f, "sweeper is to decide anew"),
        }
    }
}

// What is to be put back and thrown away.
fn write_turns<W: fmt::Write>(
    back: &[Digest],
    away: &[Digest],
    f: &mut fmt::Formatter<W>,
) -> fmt::Result
    ensures { WritesOnOk W.Write.write_str_gives f.old result (turns_text back.now away.now) f.new }
{
    write!(f, "sweeper ends, back")?;
    write_each(" ", back, "", f)?;
    write!(f, ", away")?;
    write_each(" ", away, "", f)
}

// A line for each piece.
fn write_pieces<W: fmt::Write>(shown: &Shown, f: &mut fmt::Formatter<W>) -> fmt::Result
    ensures { WritesOnOk W.Write.write_str_gives f.old result (pieces_text shown.now) f.new }
{
    write_each("place ", &shown.place, "\n", f)?;
    write_each("aside ", &shown.aside, "\n", f)
}

// A line for each listed name and each day.
fn write_lists<W: fmt::Write>(shown: &Shown, f: &mut fmt::Formatter<W>) -> fmt::Result
    ensures { WritesOnOk W.Write.write_str_gives f.old result (lists_text shown.now) f.new }
{
    write_each("listed ", &shown.listed, "\n", f)?;
    write_each("listed sweeper ", &shown.own, "\n", f)?;
    write_each("day ", &shown.days, "\n", f)
}

// A line for each machine, the last without a newline.
fn write_machines<W: fmt::Write>(
    machines: &[ShownMachine],
    f: &mut fmt::Formatter<W>,
) -> fmt::Result
    ensures { WritesOnOk W.Write.write_str_gives f.old result (machines_text machines.now) f.new }
{
    let Some((first, others)) = machines.split_first() else {
        return Ok(());
    };
    write!(f, "{first}")?;
    write_each("\n", others, "", f)
}

impl fmt::Display for Shown {
    ghost output = { λ s. Some (shown_text s) };

    fn fmt<W: fmt::Write>(&self, f: &mut fmt::Formatter<W>) -> fmt::Result {
        write_pieces(self, f)?;
        write_lists(self, f)?;
        write_machines(&self.machines, f)?;
        write!(f, "\n{}", self.sweeper)
    }
}

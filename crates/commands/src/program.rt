// The six programs.
ghost use Rattle.std.specs.Prelude.{◌≡◌};
ghost use Rattle.commands.specs.Tellings.{telling};

use std::fmt;

#[derive(Clone, Copy, Debug, PartialEq, Eq)]
pub enum Program {
    Init,
    Day,
    List,
    Back,
    Go,
    Sweep,
}

impl Program {
    // Does it tell how far it is, with `--progress`?
    pub fn tells(self) -> bool
        ensures { result ≡ telling self }
    {
        matches!(self, Program::Day | Program::Sweep)
    }

    fn name(self) -> &'static str {
        match self {
            Program::Init => "init",
            Program::Day => "day",
            Program::List => "list",
            Program::Back => "back",
            Program::Go => "go",
            Program::Sweep => "sweep",
        }
    }

    // Its words.
    fn words(self) -> &'static str {
        match self {
            Program::Init => "init [--store FOLDER] MACHINE..",
            Program::Day => "day [--store FOLDER] [--progress] M LIST",
            Program::List => "list [--store FOLDER] [M N]",
            Program::Back => "back [--store FOLDER] M N PATH [TO]",
            Program::Go => "go [--store FOLDER] M N",
            Program::Sweep => "sweep [--store FOLDER] [--progress]",
        }
    }

    fn purpose(self) -> &'static str {
        match self {
            Program::Init =>
                "Makes a new store, with these machines on its list: numbers from 0 to 63, or two with a dash between them.",
            Program::Day =>
                "Machine M makes a day of the files named in LIST, a text with a path on each line, sorted; - is standard input.",
            Program::List => "Lists the days there are, or the files of day N of machine M.",
            Program::Back => "Writes the file PATH of day N of machine M to that path, or to TO.",
            Program::Go =>
                "Lets day N of machine M go. Its pieces stay till a sweep finds that no day has them.",
            Program::Sweep =>
                "Puts aside the pieces that no day has, and throws away what is aside once every machine has finished a day since. Run it now and then.",
        }
    }

    fn example(self) -> &'static str {
        match self {
            Program::Init => "init --store /mnt/backup 0-29",
            Program::Day => "find . -type f | LC_ALL=C sort | day --store /mnt/backup 3 -",
            Program::List => "list --store /mnt/backup 3 17",
            Program::Back => "back --store /mnt/backup 3 17 photos/1871-04.jpg",
            Program::Go => "go --store /mnt/backup 3 17",
            Program::Sweep => "sweep --store /mnt/backup --progress",
        }
    }
}

impl fmt::Display for Program {
    fn fmt<W: fmt::Write>(&self, f: &mut fmt::Formatter<W>) -> fmt::Result {
        write!(f, "{}", self.name())
    }
}

// How a program is called.
#[derive(Clone, Copy)]
pub struct Help(pub Program);

impl fmt::Display for Help {
    fn fmt<W: fmt::Write>(&self, f: &mut fmt::Formatter<W>) -> fmt::Result {
        let program = self.0;
        writeln!(f, "{}", program.words())?;
        writeln!(f, "{}", program.purpose())?;
        writeln!(
            f,
            "The store is FOLDER, or else the one that the environment variable ZELTUVA_STORE names."
        )?;
        write!(f, "Example:\n    {}", program.example())
    }
}

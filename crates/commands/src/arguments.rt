// The words that a program is called with: options and arguments.
ghost use Rattle.std.specs.Prelude.{◌≡◌, codes, drop, map, nat_eq, true};
ghost use Rattle.std.specs.List.{after_first, before_first, starts_with};
ghost use Rattle.commands.specs.declared.arguments.Fault.TheVariants.{NoMemory};
ghost use Rattle.commands.specs.Arguments.{Reads, dashes, kind_by, same};

use std::alloc::{AllocError, AllocFailed, Global};

// Why words are not those of a program.
#[derive(Clone, Copy, Debug, PartialEq, Eq)]
pub enum Fault {
    // the program has no such option
    NoOption,
    // the store is named a second time
    StoreTwice,
    // no folder follows `--store`
    NoFolder,
    // there are too few arguments, or too many
    WrongCount,
    // this is to be a number
    NoNumber,
    // no machine has such a number
    NoMachine,
    // a machine is named a second time, or a range has none
    NoMore,
    NoMemory,
}

// A word with what is wrong with it.
#[derive(Clone, Copy, Debug, PartialEq, Eq)]
pub struct Wrong<'a> {
    pub word: &'a str,
    pub fault: Fault,
}

// What a word before `--` is.
#[derive(Clone, Copy, Debug, PartialEq, Eq)]
pub enum Kind {
    Help,
    Progress,
    // the folder is the next word
    Store,
    // the folder is the rest of this word
    StoreIs,
    // an option that no program has
    NoOption,
    Argument,
}

const STORE_IS: &str = "--store=";

// Is a word this one?
fn is_word(word: &[u8], name: &[u8]) -> bool
    ensures { result ≡ same word.now name.now }
{
    word == name
}

fn kind_of(word: &[u8]) -> Kind
    ensures { result ≡ kind_by word.now }
{
    if is_word(word, b"--help") {
        return Kind::Help;
    }
    if is_word(word, b"--progress") {
        return Kind::Progress;
    }
    if is_word(word, b"--store") {
        return Kind::Store;
    }
    if word.starts_with(b"--store=") {
        return Kind::StoreIs;
    }
    if word.len() > 1 && word[0] == b'-' {
        return Kind::NoOption;
    }
    Kind::Argument
}

// The folder in `--store=FOLDER`.
fn folder_in(word: &str) -> &str
    ensures { starts_with nat_eq word.now (codes "--store=") ≡ true → result.now ≡ drop 8 word.now }
{
    word.strip_prefix(STORE_IS).unwrap_or(word)
}

// What was said by words: the options, and the arguments in their order.
#[derive(Drop)]
pub struct Given<'a> {
    pub folder: Option<&'a str>,
    pub progress: bool,
    pub arguments: Vec<&'a str>,
    // the next word is the folder
    awaits: bool,
}

impl<'a> Given<'a> {
    ghost use Rattle.std.specs.Prelude.{Ok, Err, MatchResult, map};
    ghost use Rattle.commands.specs.Arguments.{Takes, TakesAll, naming, said};

    fn name_folder(&mut self, folder: &'a str) -> Result<(), Fault>
        ensures { MatchResult result (λ _. naming folder.now (said self.old) ≡ Ok (said self.new)) (λ e. naming folder.now (said self.old) ≡ Err e) }
    {
        self.awaits = false;
        if folder.is_empty() {
            return Err(Fault::NoFolder);
        }
        if self.folder.is_some() {
            return Err(Fault::StoreTwice);
        }
        self.folder = Some(folder);
        Ok(())
    }

    // Takes in a word that stands before `--`. Only some programs tell how far they are.
    fn take(&mut self, tells: bool, word: &'a str) -> Result<(), Fault>
        ensures { Takes tells word.now (said self.old) result (said self.new) }
    {
        if self.awaits {
            return self.name_folder(word);
        }
        match kind_of(word.as_bytes()) {
            Kind::Progress if tells => {
                self.progress = true;
                Ok(())
            }
            Kind::Store => {
                self.awaits = true;
                Ok(())
            }
            Kind::StoreIs => self.name_folder(folder_in(word)),
            Kind::Argument => {
                self.arguments.push(word)?;
                Ok(())
            }
            Kind::Help | Kind::Progress | Kind::NoOption => Err(Fault::NoOption),
        }
    }

    fn take_all(&mut self, tells: bool, words: &[&'a str]) -> Result<(), Wrong<'a>>
        ensures { TakesAll tells (map (λ w. w.now) words.now) (said self.old) result (said self.new) }
    {
        for word in words {
            let word = *word;
            if let Err(fault) = self.take(tells, word) {
                return Err(Wrong { word, fault });
            }
        }
        if self.awaits {
            let word = "--store";
            let fault = Fault::NoFolder;
            return Err(Wrong { word, fault });
        }
        Ok(())
    }
}

// The words before `--`, and those behind it.
fn split<'w, 'a>(words: &'w [&'a str]) -> (&'w [&'a str], &'w [&'a str])
    ensures front { result.0.now ≡ before_first (λ w. dashes w.now) words.now }
    ensures behind { result.1.now ≡ after_first (λ w. dashes w.now) words.now }
{
    match words
        .iter()
        .position(|word| is_word(word.as_bytes(), b"--"))
    {
        Some(end) => (&words[..end], &words[end + 1..]),
        None => (words, &words[words.len()..]),
    }
}

// Is help asked for? It is a word before `--`, whatever the others are.
pub fn wants_help(words: &[Vec<u8>]) -> bool {
    for word in words {
        if is_word(word, b"--") {
            return false;
        }
        if kind_of(word) == Kind::Help {
            return true;
        }
    }
    false
}

pub fn read<'a>(heap: Global, tells: bool, words: &[&'a str]) -> Result<Given<'a>, Wrong<'a>>
    ensures { Reads tells (map (λ w. w.now) (before_first (λ w. dashes w.now) words.now)) (map (λ w. w.now) (after_first (λ w. dashes w.now) words.now)) result }
{
    let (front, behind) = split(words);
    let mut given = Given {
        folder: None,
        progress: false,
        arguments: Vec::new(heap),
        awaits: false,
    };
    given.take_all(tells, front)?;
    given.arguments.extend_from_slice(behind)?;
    Ok(given)
}

impl From<AllocError> for Fault {
    ghost from_gives = { λ _ f. f ≡ NoMemory };

    fn from(_e: AllocError) -> Fault {
        Fault::NoMemory
    }
}

impl<T: Drop> From<AllocFailed<T>> for Fault {
    ghost from_gives = { λ _ f. f ≡ NoMemory };

    fn from(_e: AllocFailed<T>) -> Fault {
        Fault::NoMemory
    }
}

impl<'a> From<AllocError> for Wrong<'a> {
    ghost from_gives = { λ _ w. w.fault ≡ NoMemory };

    fn from(_e: AllocError) -> Wrong<'a> {
        let word = "";
        let fault = Fault::NoMemory;
        Wrong { word, fault }
    }
}

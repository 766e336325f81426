// The names of the steps, and how their lines are written.
ghost use Rattle.std.specs.Prelude.{◌≡◌, MatchOption};
ghost use Rattle.rehearsal.specs.Names.{DamageCalled, DayCalled, NoName, SweeperCalled, Wrong, line_text, name_text};

use script::{Fault, is_word};

#[derive(Clone, Copy)]
pub enum StepName {
    Digest,
    Cut,
    Begin,
    See,
    File,
    Raise,
    Name,
    Break,
    Go,
    Back,
    Bytes,
    FlipPlace,
    FlipAside,
    FlipDay,
    CutDay,
    Part,
    Look,
    Aside,
    Note,
    Decide,
    Next,
    Stop,
    Show,
}

impl StepName {
    // The step that is called so, if one is.
    pub fn called(word: &[u8]) -> Option<StepName>
        ensures { MatchOption result (NoName word.now) (λ n. word.now ≡ name_text n) }
    {
        if is_word(word, b"digest") {
            return Some(StepName::Digest);
        }
        if is_word(word, b"cut") {
            return Some(StepName::Cut);
        }
        if is_word(word, b"begin") {
            return Some(StepName::Begin);
        }
        if is_word(word, b"see") {
            return Some(StepName::See);
        }
        if is_word(word, b"file") {
            return Some(StepName::File);
        }
        if is_word(word, b"raise") {
            return Some(StepName::Raise);
        }
        if is_word(word, b"name") {
            return Some(StepName::Name);
        }
        if is_word(word, b"break") {
            return Some(StepName::Break);
        }
        if is_word(word, b"part") {
            return Some(StepName::Part);
        }
        if is_word(word, b"show") {
            return Some(StepName::Show);
        }
        StepName::of_day(word)
    }

    // The step for a day of the store that is called so, or a later one.
    fn of_day(word: &[u8]) -> Option<StepName>
        ensures { DayCalled word.now result }
    {
        if is_word(word, b"go") {
            return Some(StepName::Go);
        }
        if is_word(word, b"back") {
            return Some(StepName::Back);
        }
        if is_word(word, b"bytes") {
            return Some(StepName::Bytes);
        }
        StepName::of_damage(word)
    }

    // The damage that is called so, or a step of the sweeper.
    fn of_damage(word: &[u8]) -> Option<StepName>
        ensures { DamageCalled word.now result }
    {
        if is_word(word, b"flip-place") {
            return Some(StepName::FlipPlace);
        }
        if is_word(word, b"flip-aside") {
            return Some(StepName::FlipAside);
        }
        if is_word(word, b"flip-day") {
            return Some(StepName::FlipDay);
        }
        if is_word(word, b"cut-day") {
            return Some(StepName::CutDay);
        }
        StepName::of_sweeper(word)
    }

    // The step of the sweeper that is called so.
    fn of_sweeper(word: &[u8]) -> Option<StepName>
        ensures { SweeperCalled word.now result }
    {
        if is_word(word, b"look") {
            return Some(StepName::Look);
        }
        if is_word(word, b"aside") {
            return Some(StepName::Aside);
        }
        if is_word(word, b"note") {
            return Some(StepName::Note);
        }
        if is_word(word, b"decide") {
            return Some(StepName::Decide);
        }
        if is_word(word, b"next") {
            return Some(StepName::Next);
        }
        if is_word(word, b"stop") {
            return Some(StepName::Stop);
        }
        None
    }

    // How its line is written.
    fn line(self) -> &'static str
        ensures { result.now ≡ line_text self }
    {
        match self {
            StepName::Digest => "digest BYTES",
            StepName::Cut => "cut BYTES",
            StepName::Begin => "begin M",
            StepName::See => "see M BYTES",
            StepName::File => "file M PATH BYTES",
            StepName::Raise => "raise M",
            StepName::Name => "name M",
            StepName::Break => "break M",
            StepName::Go => "go M N",
            StepName::Back => "back M N PATH",
            StepName::Bytes => "bytes M N",
            StepName::FlipPlace => "flip-place AT BYTES",
            StepName::FlipAside => "flip-aside AT BYTES",
            StepName::FlipDay => "flip-day M N AT",
            StepName::CutDay => "cut-day M N LENGTH",
            StepName::Part => "part M",
            StepName::Look => "look",
            StepName::Aside => "aside",
            StepName::Note => "note",
            StepName::Decide => "decide",
            StepName::Next => "next",
            StepName::Stop => "stop",
            StepName::Show => "show",
        }
    }

    // The words after it are not those that its line has.
    pub fn wrong_words(self) -> Fault
        ensures { Wrong self result }
    {
        Fault::WrongWords(self.line())
    }
}

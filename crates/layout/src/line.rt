// A line of the list of machines.
ghost use Rattle.std.specs.Prelude.{◌≡◌, ◌<◌, [], ◌∷◌, length, IfSome, MatchOption, ◌==◌};
ghost use Rattle.std.specs.List.{slice_split};
ghost use Rattle.layout.specs.Lines.{chomped, digit_value, line_of, machine_line, number_value};

use script::next_word;

// What a line says.
#[derive(Clone, Copy)]
pub(crate) enum Line {
    // nothing: it is blank, or a comment
    Nothing,
    // that the list is whole
    End,
    // that there is this machine
    Machine(u8),
    // anything else
    Other,
}

// A line without the carriage return that may be its last byte.
fn without_return(line: &[u8]) -> &[u8]
    ensures { result.now ≡ chomped line.now }
{
    line.strip_suffix(b"\r").unwrap_or(line)
}

// The number that a decimal digit stands for.
fn digit_value(c: u8) -> Option<u8>
    ensures value { result ≡ digit_value c }
    ensures small { IfSome result (λ d. d < 10) }
{
    match c {
        b'0'..=b'9' => Some(c - b'0'),
        _ => None,
    }
}

// The number that a word of one digit or two spells.
fn number_value(word: &[u8]) -> Option<u8>
    ensures { result ≡ number_value word.now }
{
    match word {
        [digit] => digit_value(*digit),
        [tens, units] => Some(digit_value(*tens)? * 10 + digit_value(*units)?),
        _ => None,
    }
}

// The machine whose number a word is, or anything else.
fn machine_line(word: &[u8]) -> Line
    ensures { result ≡ machine_line (number_value word.now) }
{
    match number_value(word) {
        Some(number) if number < 64 => Line::Machine(number),
        _ => Line::Other,
    }
}

// What a line says, which stands without its newline here.
pub(crate) fn read_line(line: &[u8]) -> Line
    ensures { result ≡ line_of line.now }
{
    let Some((word, rest)) = next_word(without_return(line)) else {
        return Line::Nothing;
    };
    if word[0] == b'#' {
        return Line::Nothing;
    }
    if word == b"end".as_slice() && next_word(rest).is_none() {
        return Line::End;
    }
    machine_line(word)
}

// The first line of a text without its newline, and what follows that. Where there is no newline nothing follows.
pub(crate) fn split_line(text: &[u8]) -> (&[u8], Option<&[u8]>)
    ensures lines { MatchOption result.1 (slice_split (λ c. c == 10) text.now ≡ result.0.now ∷ []) (λ after. slice_split (λ c. c == 10) text.now ≡ result.0.now ∷ slice_split (λ c. c == 10) after.now) }
    ensures shorter { IfSome result.1 (λ after. length after.now < length text.now) }
{
    match text.iter().position(|c| *c == b'\n') {
        Some(end) => (&text[..end], Some(&text[end + 1..])),
        None => (text, None),
    }
}

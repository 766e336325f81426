// The words of a line: runs of bytes that are neither space nor tab.
ghost use Rattle.std.specs.Prelude.{◌≡◌, ◌<◌, [], length, Decides, MatchOption};
ghost use Rattle.script.specs.Lines.{blank, first, rest};
ghost use Rattle.script.specs.Messages.{second, third, SoleWord, ThreeWords, TwoWords};

fn is_blank(c: u8) -> bool
    ensures { result ≡ blank c }
{
    matches!(c, b' ' | b'\t')
}

// The first word and what follows it, or None where there is no word.
pub fn next_word(line: &[u8]) -> Option<(&[u8], &[u8])>
    ensures { MatchOption result (first line.now ≡ []) (λ p. (p.0.now ≡ first line.now) × (p.1.now ≡ rest line.now) × (0 < length p.0.now)) }
{
    let start = line.iter().position(|c| !is_blank(*c))?;
    let from = &line[start..];
    let end = from.iter().position(|c| is_blank(*c)).unwrap_or(from.len());
    Some(from.split_at(end))
}

// The word of a line that has just one.
pub fn one_word(line: &[u8]) -> Option<&[u8]>
    ensures { MatchOption result (SoleWord line.now → ⊥) (λ w. SoleWord line.now × (w.now ≡ first line.now)) }
{
    let (one, others) = next_word(line)?;
    if next_word(others).is_some() {
        return None;
    }
    Some(one)
}

// The words of a line that has just two.
pub fn two_words(line: &[u8]) -> Option<(&[u8], &[u8])>
    ensures { MatchOption result (TwoWords line.now → ⊥) (λ p. TwoWords line.now × (p.0.now ≡ first line.now) × (p.1.now ≡ second line.now)) }
{
    let (one, others) = next_word(line)?;
    let (two, others) = next_word(others)?;
    if next_word(others).is_some() {
        return None;
    }
    Some((one, two))
}

// The words of a line that has just three.
pub fn three_words(line: &[u8]) -> Option<(&[u8], &[u8], &[u8])>
    ensures { MatchOption result (ThreeWords line.now → ⊥) (λ p. ThreeWords line.now × (p.0.now ≡ first line.now) × (p.1.now ≡ second line.now) × (p.2.now ≡ third line.now)) }
{
    let (one, others) = next_word(line)?;
    let (two, three) = two_words(others)?;
    Some((one, two, three))
}

// Is a word this one?
pub fn is_word(word: &[u8], name: &[u8]) -> bool
    ensures { Decides result (word.now ≡ name.now) }
{
    word == name
}

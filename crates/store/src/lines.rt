// Several things, one after the other, in words.
ghost use Rattle.std.specs.Prelude.{◌++◌, IsSome};
ghost use Rattle.std.specs.Fmt.{WritesOnOk};
ghost use Rattle.store.specs.Lines.{each_text};

use std::fmt;

// Writes each of a list, with the same before and after it.
pub fn write_each<T: fmt::Display, W: fmt::Write>(
    before: &str,
    list: &[T],
    after: &str,
    f: &mut fmt::Formatter<W>,
) -> fmt::Result
    ensures { ((x : T) → IsSome (T.Display.output x)) → WritesOnOk W.Write.write_str_gives f.old result (each_text T.Display.output before.now list.now after.now) f.new }
{
    for item in list {
        write!(f, "{before}{item}{after}")?;
    }
    Ok(())
}

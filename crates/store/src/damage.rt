// Damage to what lies in the store in memory, so that it can be played what becomes of it.
ghost use Rattle.std.specs.Prelude.{◌+◌, take, vec_items};
ghost use Rattle.std.specs.Option.{option_map};
ghost use Rattle.store.specs.Damages.{Damages, Flips, flipped};
ghost use Rattle.store.specs.Effects.{lies, with_day, with_lying};
ghost use Rattle.store.specs.Memories.{state_of};

use crate::day::DayName;
use crate::memory::Memory;
use crate::piece::Spot;
use cutting::Refusal;
use digest::Digest;

// Turns round each bit of byte number `at`.
fn flip_byte(bytes: &mut [u8], at: usize) -> Result<(), Refusal>
    ensures { Flips at bytes.old result bytes.new }
{
    if at >= bytes.len() {
        return Err(Refusal::Unknown);
    }
    bytes[at] = 255 - bytes[at];
    Ok(())
}

// Turns round each bit of a byte of what lies somewhere, if anything does.
fn flip_lying(there: &mut Option<Vec<u8>>, at: usize) -> Result<(), Refusal>
    ensures { let old = option_map vec_items there.old in Damages old (at + 1) (flipped at) (λ b _. b) old result (option_map vec_items there.new) }
{
    match there {
        Some(bytes) => flip_byte(bytes, at),
        None => Err(Refusal::Unknown),
    }
}

impl Memory {
    // Turns round each bit of a byte of what lies there under a name.
    pub fn flip(&mut self, spot: Spot, name: Digest, at: usize) -> Result<(), Refusal>
        ensures { Damages (lies spot (state_of self.old) name) (at + 1) (flipped at) (with_lying spot name) (state_of self.old) result (state_of self.new) }
    {
        let Some(copies) = self.pieces.get_mut(&name) else {
            return Err(Refusal::Unknown);
        };
        match spot {
            Spot::Place => flip_lying(&mut copies.place, at),
            Spot::Aside => flip_lying(&mut copies.aside, at),
        }
    }

    // Turns round each bit of a byte of what lies under the name of a day.
    pub fn flip_day(&mut self, day: DayName, at: usize) -> Result<(), Refusal>
        ensures { Damages ((state_of self.old).days day) (at + 1) (flipped at) (with_day day) (state_of self.old) result (state_of self.new) }
    {
        let Some(file) = self.days.get_mut(&day) else {
            return Err(Refusal::Unknown);
        };
        flip_byte(file, at)
    }

    // Leaves only so many bytes of what lies under the name of a day.
    pub fn cut_day(&mut self, day: DayName, length: usize) -> Result<(), Refusal>
        ensures { Damages ((state_of self.old).days day) length (take length) (with_day day) (state_of self.old) result (state_of self.new) }
    {
        let Some(file) = self.days.get_mut(&day) else {
            return Err(Refusal::Unknown);
        };
        if file.len() < length {
            return Err(Refusal::Unknown);
        }
        file.truncate(length);
        Ok(())
    }
}

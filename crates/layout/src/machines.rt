// The list of machines, a text that a person edits.
ghost use Rattle.std.specs.Prelude.{◌≡◌, IfOk, Ok};
ghost use Rattle.layout.specs.Machines.{AreMachines, machines_in, machines_text};
ghost use Rattle.layout.specs.Reads.{ReadsMachines};

use crate::fault::{LineFault, MachinesFault};
use crate::line::{Line, read_line, split_line};
use std::alloc::{AllocError, Global};

// What is read of the lines so far.
#[derive(Drop)]
struct Found {
    machines: Vec<u8>,
    // whether the last line, `end`, was among them
    ended: bool,
}

impl Found {
    ghost use Rattle.layout.specs.Reads.{TakesIn, reading_of};

    // Takes in what the line of this number says.
    fn take_in(&mut self, number: usize, line: Line) -> Result<(), MachinesFault>
        ensures { TakesIn (reading_of self.old) number line (reading_of self.new) result }
    {
        match line {
            Line::Nothing => Ok(()),
            _ if self.ended => Err(MachinesFault::Line(number, LineFault::BehindEnd)),
            Line::End => {
                self.ended = true;
                Ok(())
            }
            Line::Machine(machine) => {
                if self.machines.contains(&machine) {
                    return Err(MachinesFault::Line(number, LineFault::Twice(machine)));
                }
                self.machines.push(machine)?;
                Ok(())
            }
            Line::Other => Err(MachinesFault::Line(number, LineFault::NotANumber)),
        }
    }
}

// The machines on the list, in the order of their lines.
pub fn read_machines(heap: Global, text: &[u8]) -> Result<Vec<u8>, MachinesFault>
    ensures { ReadsMachines text.now result }
{
    let mut found = Found {
        machines: Vec::new(heap),
        ended: false,
    };
    let mut number = 0;
    let mut rest = Some(text);
    while let Some(lines) = rest {
        let (line, after) = split_line(lines);
        number += 1;
        found.take_in(number, read_line(line))?;
        rest = after;
    }
    if found.ended {
        Ok(found.machines)
    } else {
        Err(MachinesFault::NoEnd)
    }
}

// The list of these machines, as it is written for a new store.
pub fn write_machines(heap: Global, machines: &[u8]) -> Result<Vec<u8>, AllocError>
    ensures text { IfOk result (λ v. v.items ≡ machines_text machines.now) }
    ensures back { AreMachines machines.now → IfOk result (λ v. machines_in v.items ≡ Ok machines.now) }
{
    let mut text = Vec::from_slice(
        heap,
        b"# The machines of this store: a line for each, which begins with its number, from 0 to 63. The last line is `end`.\n",
    )?;
    for machine in machines {
        let digits = format!(in heap; "{machine}\n")?;
        text.extend_from_slice(digits.as_bytes())?;
    }
    text.extend_from_slice(b"end\n")?;
    Ok(text)
}

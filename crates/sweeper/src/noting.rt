// What the sweeper asks of a store when it notes: the highest number of each machine.
ghost use Rattle.std.specs.Prelude.{◌<◌};
ghost use Rattle.sweeper.specs.Looking.{NotesAll, NotesOne};
ghost use Rattle.sweeper.specs.Steps.{Numbers};

use cutting::Refusal;
use store::{MACHINES, Noted, Store};

fn note_one<S: Store>(store: &mut S, machine: u8, noted: &mut Noted) -> Result<(), Refusal>
    requires { machine < 64 }
    ensures { NotesOne S.does machine store.old noted.old.highest result store.new noted.new.highest }
{
    noted.highest[machine as usize] = store.highest(machine)?;
    Ok(())
}

#[tactic(auto, using(crate::proofs::Loops::loop_done, crate::proofs::Loops::loop_stops, crate::proofs::Loops::times_more, crate::proofs::Loops::times_none))]
fn note_all<S: Store>(store: &mut S, noted: &mut Noted) -> Result<(), Refusal>
    ensures { NotesAll S.does store.old noted.old.highest result store.new noted.new.highest }
{
    for machine in 0..MACHINES {
        note_one(store, machine, noted)?;
    }
    Ok(())
}

// The highest number of every machine.
pub(crate) fn highest_numbers<S: Store>(store: &mut S) -> Result<Noted, Refusal>
    ensures { Numbers S.does store.old result store.new }
{
    let mut noted = Noted { highest: [0; 64] };
    note_all(store, &mut noted)?;
    Ok(noted)
}

// What the sweeper asks of a store when it decides: whether every machine has finished a day, and what lies aside.
ghost use Rattle.std.specs.Prelude.{◌≡◌, ◌+◌, ◌<◌, true, Bool, List, [], Ok, Err, IfOk, IfErr};
ghost use Rattle.digest.specs.declared.value.Digest.{Digest};
ghost use Rattle.sweeper.specs.Loops.{Each};
ghost use Rattle.sweeper.specs.Looking.{AllFinished, AndMachine, Divides, DividesAll, Finished, FinishedIfListed, HasDay, OrDay};
ghost use Rattle.sweeper.specs.Sweepers.{noted_of, turns_of};

use crate::turns::Turns;
use cutting::Refusal;
use digest::{Digest, sha256};
use std::alloc::Global;
use std::collections::BTreeSet;
use store::{DayName, MACHINES, Noted, Spot, Store};

// Is there such a day?
fn has_day<S: Store>(store: &mut S, day: DayName) -> Result<bool, Refusal>
    ensures { HasDay S.does day store.old result store.new }
{
    Ok(store.read_day(day)?.is_some())
}

// Is one found already, or is this one there, so many above the noted number?
fn or_day<S: Store>(
    store: &mut S,
    machine: u8,
    noted: u32,
    past: u32,
    found: &mut bool,
) -> Result<(), Refusal>
    requires { noted + past < 4294967295 }
    ensures { OrDay S.does machine noted past store.old found.old result store.new found.new }
{
    if !*found {
        let day = DayName {
            machine,
            number: noted + past + 1,
        };
        *found = has_day(store, day)?;
    }
    Ok(())
}

// Has a machine a day above this number?
#[tactic(auto, using(crate::proofs::Loops::loop_done, crate::proofs::Loops::loop_stops, crate::proofs::Loops::times_more, crate::proofs::Loops::times_none))]
fn has_finished<S: Store>(store: &mut S, machine: u8, noted: u32) -> Result<bool, Refusal>
    ensures { Finished S.does machine noted store.old result store.new }
{
    let mut found = false;
    for past in 0..store.highest(machine)?.saturating_sub(noted) {
        or_day(store, machine, noted, past, &mut found)?;
    }
    Ok(found)
}

// So for a machine that is on the list; one that is not need not.
pub fn has_finished_if_listed<S: Store>(
    store: &mut S,
    machine: u8,
    noted: u32,
) -> Result<bool, Refusal>
    ensures { FinishedIfListed S.does machine noted store.old result store.new }
{
    if !store.has_machine(machine)? {
        return Ok(true);
    }
    has_finished(store, machine, noted)
}

// The number that was noted of a machine.
pub fn noted_number(noted: &Noted, machine: u8) -> u32
    ensures { result ≡ noted_of noted.now machine }
{
    noted.highest.get(machine as usize).copied().unwrap_or(0)
}

// Have all so far, and this one, too?
fn and_machine<S: Store>(
    store: &mut S,
    noted: &Noted,
    machine: u8,
    all: &mut bool,
) -> Result<(), Refusal>
    ensures { AndMachine S.does noted.now machine store.old all.old result store.new all.new }
{
    if *all {
        *all = has_finished_if_listed(store, machine, noted_number(noted, machine))?;
    }
    Ok(())
}

// So for all machines.
#[tactic(auto, using(crate::proofs::Loops::loop_done, crate::proofs::Loops::loop_stops, crate::proofs::Loops::times_more, crate::proofs::Loops::times_none))]
fn and_machines<S: Store>(store: &mut S, noted: &Noted, all: &mut bool) -> Result<(), Refusal>
    ensures { AllFinished S.does noted.now store.old all.old result store.new all.new }
{
    for machine in 0..MACHINES {
        and_machine(store, noted, machine, all)?;
    }
    Ok(())
}

// Has every machine on the list a day above its noted number?
pub(crate) fn all_have_finished<S: Store>(store: &mut S, noted: &Noted) -> Result<bool, Refusal>
    ensures ok { IfOk result (λ b. AllFinished S.does noted.now store.old true (Ok tt) store.new b) }
    ensures err { IfErr result (λ r. (b : Bool) × AllFinished S.does noted.now store.old true (Err r) store.new b) }
{
    let mut all = true;
    and_machines(store, noted, &mut all)?;
    Ok(all)
}

impl Turns {
    // Says of a name in the sweeper's list what is to be done with what lies aside under it, if anything does.
    fn add<S: Store>(
        &mut self,
        store: &mut S,
        name: Digest,
        used: &BTreeSet<Digest>,
    ) -> Result<(), Refusal>
        ensures { Divides S.does used.now.keys name store.old (turns_of self.old) result store.new (turns_of self.new) }
    {
        let Some(bytes) = store.read(Spot::Aside, name)? else {
            return Ok(());
        };
        if used.contains(&name) && sha256(&bytes) == name {
            self.back.insert(name)?;
            return Ok(());
        }
        self.away.insert(name)?;
        Ok(())
    }

    #[tactic(auto, using(crate::proofs::Loops::loop_done, crate::proofs::Loops::loop_stops, crate::proofs::Loops::times_more, crate::proofs::Loops::times_none))]
    fn add_names<S: Store>(
        &mut self,
        store: &mut S,
        names: &[Digest],
        used: &BTreeSet<Digest>,
    ) -> Result<(), Refusal>
        ensures { Each (Divides S.does used.now.keys) names.now store.old (turns_of self.old) result store.new (turns_of self.new) }
    {
        for name in names {
            self.add(store, *name, used)?;
        }
        Ok(())
    }

    // So of all names in the sweeper's list.
    fn add_all<S: Store>(&mut self, store: &mut S, used: &BTreeSet<Digest>) -> Result<(), Refusal>
        ensures { DividesAll S.does used.now.keys store.old (turns_of self.old) result store.new (turns_of self.new) }
    {
        let names = store.own_names()?;
        self.add_names(store, &names, used)
    }
}

pub(crate) fn all_turns<S: Store>(
    heap: Global,
    store: &mut S,
    used: &BTreeSet<Digest>,
) -> Result<Turns, Refusal>
    ensures ok { IfOk result (λ turns. DividesAll S.does used.now.keys store.old ([], []) (Ok tt) store.new (turns_of turns)) }
    ensures err { IfErr result (λ r. (v : List Digest × List Digest) × DividesAll S.does used.now.keys store.old ([], []) (Err r) store.new v) }
{
    let mut turns = Turns {
        back: BTreeSet::new(heap),
        away: BTreeSet::new(heap),
    };
    turns.add_all(store, used)?;
    Ok(turns)
}

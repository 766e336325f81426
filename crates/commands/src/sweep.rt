// Sweeps as much as it may.
ghost use Rattle.std.specs.Prelude.{◌≡◌};
ghost use Rattle.sweeper.specs.Sweepers.{doing};
ghost use Rattle.commands.specs.Moves.{counting};
ghost use Rattle.commands.specs.Sweeps.{step_after};

use crate::opening::{OpenStore, refused};
use crate::program::Program;
use crate::trouble::{Trouble, What};
use cutting::Refusal;
use std::alloc::Global;
use std::fmt::Write;
use std::io;
use store::{MACHINES, Noted, Store};
use sweeper::{Activity, Answer, Done, Sweeper, has_finished_if_listed, noted_number};

// What is to be done next.
#[derive(Clone, Copy, Debug, PartialEq, Eq)]
enum Next {
    Look,
    Aside,
    Note,
    Decide,
    Turn,
    // nothing more in this run
    Nothing,
}

// After a look of this run no other one is begun, and none is ended.
fn next_step(activity: &Activity, looked: bool) -> Next
    ensures { result ≡ step_after looked (doing activity.now) }
{
    match activity {
        Activity::PutsAside(left) => {
            if left.is_empty() {
                Next::Note
            } else {
                Next::Aside
            }
        }
        Activity::Ends(_) => Next::Turn,
        Activity::DecidesAnew => Next::Decide,
        Activity::Rests | Activity::Waits(_) if looked => Next::Nothing,
        Activity::Rests => Next::Look,
        Activity::Waits(_) => Next::Decide,
    }
}

// How many pieces were moved.
#[derive(Clone, Copy, Debug, PartialEq, Eq)]
struct Moved {
    aside: u64,
    back: u64,
    away: u64,
}

impl Moved {
    fn count(&mut self, done: Done)
        ensures { self.new ≡ counting self.old done }
    {
        match done {
            Done::PutAside(_) => self.aside = self.aside.saturating_add(1),
            Done::PutBack(_) => self.back = self.back.saturating_add(1),
            Done::ThrownAway(_) => self.away = self.away.saturating_add(1),
            Done::Looked(_) | Done::Noted | Done::Decided(_, _) | Done::Rested => {}
        }
    }
}

// Says what it does next, where that is long. If it cannot be said, it is done all the same.
fn tell(rt: &HostRuntime, next: Next) {
    let _ = match next {
        Next::Look => eprintln!(rt; "looks, and reads all days for that"),
        Next::Decide => eprintln!(rt; "decides, and reads all days for that"),
        Next::Note => eprintln!(rt; "all is aside that no day has"),
        Next::Aside | Next::Turn | Next::Nothing => Ok(()),
    };
}

// Takes a step, if there is one.
fn take<S: Store>(
    heap: Global,
    sweeper: Sweeper,
    store: &mut S,
    next: Next,
) -> (Sweeper, Option<Answer>) {
    let (sweeper, answer) = match next {
        Next::Look => sweeper.look(heap, store),
        Next::Aside => sweeper.aside(store),
        Next::Note => sweeper.note(store),
        Next::Decide => sweeper.decide(heap, store),
        Next::Turn => sweeper.next(store),
        Next::Nothing => return (sweeper, None),
    };
    (sweeper, Some(answer))
}

// The machines that have finished no day since their numbers were noted.
fn waited_for<S: Store>(heap: Global, store: &mut S, noted: &Noted) -> Result<Vec<u8>, Refusal> {
    let mut machines = Vec::new(heap);
    for machine in 0..MACHINES {
        if !has_finished_if_listed(store, machine, noted_number(noted, machine))? {
            machines.push(machine)?;
        }
    }
    Ok(machines)
}

// Whether it waits for a machine. It does not decide then: that would only read all days to be refused.
fn waits<S: Store>(heap: Global, store: &mut S, activity: &Activity) -> Result<bool, Refusal> {
    match activity {
        Activity::Waits(noted) => Ok(!waited_for(heap, store, noted)?.is_empty()),
        _ => Ok(false),
    }
}

// Takes steps till there is none, or it waits for a machine.
fn take_all<S: Store>(
    rt: &HostRuntime,
    store: &mut S,
    tells: bool,
    moved: &mut Moved,
) -> Result<Sweeper, Refusal> {
    let heap = rt.alloc();
    let mut sweeper = Sweeper::come_up(store)?;
    let mut looked = false;
    for _ in 0..u64::MAX {
        let next = next_step(sweeper.activity(), looked);
        if next == Next::Decide && waits(heap, store, sweeper.activity())? {
            break;
        }
        if tells {
            tell(rt, next);
        }
        let (after, answer) = take(heap, sweeper, store, next);
        sweeper = after;
        match answer {
            Some(Ok(done)) => moved.count(done),
            Some(Err(Refusal::Unfinished)) | None => break,
            Some(Err(refusal)) => return Err(refusal),
        }
        if next == Next::Look {
            looked = true;
        }
    }
    Ok(sweeper)
}

fn swept(
    rt: &HostRuntime,
    store: &mut OpenStore,
    tells: bool,
    moved: &mut Moved,
) -> Result<Vec<u8>, Refusal> {
    store.store.lock_sweeper()?;
    let sweeper = take_all(rt, store, tells, moved)?;
    let machines = match sweeper.activity() {
        Activity::Waits(noted) => waited_for(rt.alloc(), store, noted)?,
        _ => Vec::new(rt.alloc()),
    };
    store.store.finish()?;
    Ok(machines)
}

// All at once, so that it is written whole or not at all.
fn say(rt: &HostRuntime, moved: Moved, machines: &[u8]) -> io::Result<()> {
    let Moved { aside, back, away } = moved;
    let heap = rt.alloc();
    let mut text = format!(in heap; "put aside {aside}\nput back {back}\nthrown away {away}\n")?;
    if machines.is_empty() {
        text.push_str("rests")?;
    } else {
        text.push_str("waits for")?;
    }
    for machine in machines {
        write!(text, " {machine}")?;
    }
    println!(rt; "{text}")
}

pub fn sweep(rt: &HostRuntime, store: &mut OpenStore, tells: bool) -> Result<(), Trouble> {
    if tells {
        store.store.tell();
    }
    let mut moved = Moved {
        aside: 0,
        back: 0,
        away: 0,
    };
    match swept(rt, store, tells, &mut moved) {
        Ok(machines) => say(rt, moved, &machines).map_err(Trouble::output),
        Err(refusal) => Err(refused(rt, Program::Sweep, store, refusal, What::Sweep)),
    }
}

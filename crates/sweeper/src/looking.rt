// What the sweeper asks of a store when it looks and when it decides.
ghost use Rattle.std.specs.Prelude.{List, [], Ok, Err, IfOk, IfErr};
ghost use Rattle.digest.specs.declared.value.Digest.{Digest};
ghost use Rattle.sweeper.specs.Loops.{Each};
ghost use Rattle.store.specs.Requests as request;
ghost use Rattle.sweeper.specs.Looking.{AddsDay, AddsDays, AddsList, AddsLists, AddsName, AddsPiece, Checks, GathersUnused, GathersUsed, ReadsRight};

use cutting::Refusal;
use dayfile::read_names;
use digest::{Digest, sha256};
use std::alloc::Global;
use std::collections::BTreeSet;
use store::{DayName, MACHINES, Spot, Store};

// Are the bytes that lie there of that name?
fn reads_right<S: Store>(store: &mut S, spot: Spot, name: Digest) -> Result<bool, Refusal>
    ensures { ReadsRight S.does spot name store.old result store.new }
{
    match store.read(spot, name)? {
        Some(bytes) => Ok(sha256(&bytes) == name),
        None => Ok(false),
    }
}

// Is a piece of a day there, in its place or else aside?
fn check_piece<S: Store>(store: &mut S, name: Digest) -> Result<(), Refusal>
    ensures { Checks S.does name store.old result store.new }
{
    if reads_right(store, Spot::Place, name)? || reads_right(store, Spot::Aside, name)? {
        return Ok(());
    }
    Err(Refusal::BadDay)
}

// Checks a piece of a day and adds its name to those that days have, unless it is there.
fn add_piece<S: Store>(
    store: &mut S,
    name: Digest,
    used: &mut BTreeSet<Digest>,
) -> Result<(), Refusal>
    ensures { AddsPiece S.does name store.old used.old.keys result store.new used.new.keys }
{
    if !used.contains(&name) {
        check_piece(store, name)?;
        used.insert(name)?;
    }
    Ok(())
}

// So for every piece of a day.
#[tactic(auto, using(crate::proofs::Loops::loop_done, crate::proofs::Loops::loop_stops, crate::proofs::Loops::times_more, crate::proofs::Loops::times_none))]
fn add_pieces<S: Store>(
    store: &mut S,
    pieces: &[Digest],
    used: &mut BTreeSet<Digest>,
) -> Result<(), Refusal>
    ensures { Each (AddsPiece S.does) pieces.now store.old used.old.keys result store.new used.new.keys }
{
    for name in pieces {
        add_piece(store, *name, used)?;
    }
    Ok(())
}

// So for a day, if there is one: its file is to be of its form.
fn add_day<S: Store>(
    heap: Global,
    store: &mut S,
    day: DayName,
    used: &mut BTreeSet<Digest>,
) -> Result<(), Refusal>
    ensures { AddsDay S.does day store.old used.old.keys result store.new used.new.keys }
{
    let Some(file) = store.read_day(day)? else {
        return Ok(());
    };
    let names = read_names(heap, day, &file)?;
    add_pieces(store, &names, used)
}

#[tactic(auto, using(crate::proofs::Loops::loop_done, crate::proofs::Loops::loop_stops, crate::proofs::Loops::times_more, crate::proofs::Loops::times_none))]
fn add_days<S: Store>(
    heap: Global,
    store: &mut S,
    machine: u8,
    used: &mut BTreeSet<Digest>,
) -> Result<(), Refusal>
    ensures { AddsDays S.does machine store.old used.old.keys result store.new used.new.keys }
{
    for number in 0..store.highest(machine)? {
        let day = DayName {
            machine,
            number: number + 1,
        };
        add_day(heap, store, day, used)?;
    }
    Ok(())
}

// The names of all pieces that days have, each checked.
#[tactic(auto, using(crate::proofs::Loops::loop_done, crate::proofs::Loops::loop_stops, crate::proofs::Loops::times_more, crate::proofs::Loops::times_none))]
fn add_all_days<S: Store>(
    heap: Global,
    store: &mut S,
    used: &mut BTreeSet<Digest>,
) -> Result<(), Refusal>
    ensures { GathersUsed S.does store.old used.old.keys result store.new used.new.keys }
{
    for machine in 0..MACHINES {
        add_days(heap, store, machine, used)?;
    }
    Ok(())
}

pub(crate) fn used_names<S: Store>(heap: Global, store: &mut S) -> Result<BTreeSet<Digest>, Refusal>
    ensures ok { IfOk result (λ used. GathersUsed S.does store.old [] (Ok tt) store.new used.keys) }
    ensures err { IfErr result (λ r. (v : List Digest) × GathersUsed S.does store.old [] (Err r) store.new v) }
{
    let mut used = BTreeSet::new(heap);
    add_all_days(heap, store, &mut used)?;
    Ok(used)
}

// Adds a listed name to those that are unused, if no day has it and something lies in its place.
fn add_name<S: Store>(
    store: &mut S,
    name: Digest,
    used: &BTreeSet<Digest>,
    unused: &mut BTreeSet<Digest>,
) -> Result<(), Refusal>
    ensures { AddsName S.does used.now.keys name store.old unused.old.keys result store.new unused.new.keys }
{
    if !used.contains(&name) && store.read(Spot::Place, name)?.is_some() {
        unused.insert(name)?;
    }
    Ok(())
}

#[tactic(auto, using(crate::proofs::Loops::loop_done, crate::proofs::Loops::loop_stops, crate::proofs::Loops::times_more, crate::proofs::Loops::times_none))]
fn add_names<S: Store>(
    store: &mut S,
    names: &[Digest],
    used: &BTreeSet<Digest>,
    unused: &mut BTreeSet<Digest>,
) -> Result<(), Refusal>
    ensures { Each (AddsName S.does used.now.keys) names.now store.old unused.old.keys result store.new unused.new.keys }
{
    for name in names {
        add_name(store, *name, used, unused)?;
    }
    Ok(())
}

// So for the list of a machine.
fn add_list<S: Store>(
    store: &mut S,
    machine: u8,
    used: &BTreeSet<Digest>,
    unused: &mut BTreeSet<Digest>,
) -> Result<(), Refusal>
    ensures { AddsList S.does used.now.keys (request.NamesOf machine) store.old unused.old.keys result store.new unused.new.keys }
{
    let names = store.names_of(machine)?;
    add_names(store, &names, used, unused)
}

// And for all their lists.
#[tactic(auto, using(crate::proofs::Loops::loop_done, crate::proofs::Loops::loop_stops, crate::proofs::Loops::times_more, crate::proofs::Loops::times_none))]
fn add_lists<S: Store>(
    store: &mut S,
    used: &BTreeSet<Digest>,
    unused: &mut BTreeSet<Digest>,
) -> Result<(), Refusal>
    ensures { AddsLists S.does used.now.keys store.old unused.old.keys result store.new unused.new.keys }
{
    for machine in 0..MACHINES {
        add_list(store, machine, used, unused)?;
    }
    Ok(())
}

// The names in all lists that no day has and whose place is not empty.
fn add_unused<S: Store>(
    store: &mut S,
    used: &BTreeSet<Digest>,
    unused: &mut BTreeSet<Digest>,
) -> Result<(), Refusal>
    ensures { GathersUnused S.does used.now.keys store.old unused.old.keys result store.new unused.new.keys }
{
    add_lists(store, used, unused)?;
    let names = store.own_names()?;
    add_names(store, &names, used, unused)?;
    Ok(())
}

pub(crate) fn unused_names<S: Store>(
    heap: Global,
    store: &mut S,
    used: &BTreeSet<Digest>,
) -> Result<BTreeSet<Digest>, Refusal>
    ensures ok { IfOk result (λ unused. GathersUnused S.does used.now.keys store.old [] (Ok tt) store.new unused.keys) }
    ensures err { IfErr result (λ r. (v : List Digest) × GathersUnused S.does used.now.keys store.old [] (Err r) store.new v) }
{
    let mut unused = BTreeSet::new(heap);
    add_unused(store, used, &mut unused)?;
    Ok(unused)
}

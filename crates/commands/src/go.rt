// Lets a day go.
use crate::asked::Place;
use crate::opening::{OpenStore, refused};
use crate::program::Program;
use crate::trouble::{Trouble, What};
use cutting::Refusal;
use store::Store;

fn let_go(store: &mut OpenStore, place: Place) -> Result<(), Refusal> {
    store.let_go(place.day()?)?;
    store.store.finish()
}

pub fn go(rt: &HostRuntime, store: &mut OpenStore, place: Place) -> Result<(), Trouble> {
    if let Err(refusal) = let_go(store, place) {
        return Err(refused(rt, Program::Go, store, refusal, What::Day(place)));
    }
    println!(rt;
        "day {} of machine {} is let go",
        place.number, place.machine
    )
    .map_err(Trouble::output)
}

// What is in a store in memory, in order.
ghost use Rattle.std.specs.Prelude.{IfOk, vec_items};
ghost use Rattle.store.specs.Contents.{ListsAll, ListsDays, ListsNames, ListsOwn, ListsPieces};
ghost use Rattle.store.specs.Effects.{lies};
ghost use Rattle.store.specs.Memories.{state_of};

use crate::day::DayName;
use crate::listing::Listing;
use crate::memory::Memory;
use crate::piece::Spot;
use digest::Digest;
use std::alloc::AllocError;

// A piece that lies somewhere, by its name and how many bytes lie there.
#[derive(Clone, Copy)]
pub struct Lying {
    pub name: Digest,
    pub length: usize,
}

// A day, and the bytes that lie under its name.
#[derive(Drop)]
pub struct ListedDay {
    pub name: DayName,
    pub file: Vec<u8>,
}

// Pieces by their names, names in lists by the machine and then the name, days by the machine and then the number.
#[derive(Drop)]
pub struct Contents {
    pub place: Vec<Lying>,
    pub aside: Vec<Lying>,
    pub listed: Vec<Listing>,
    // the names in the sweeper's list
    pub own: Vec<Digest>,
    pub days: Vec<ListedDay>,
}

impl Memory {
    // All pieces, names in lists and days.
    pub fn contents(&self) -> Result<Contents, AllocError>
        ensures { IfOk result (ListsAll (state_of self.now)) }
    {
        Ok(Contents {
            place: self.listed_pieces(Spot::Place)?,
            aside: self.listed_pieces(Spot::Aside)?,
            listed: self.listed_names()?,
            own: self.own_list()?,
            days: self.listed_days()?,
        })
    }

    // The names under which something lies in this spot.
    fn listed_pieces(&self, spot: Spot) -> Result<Vec<Lying>, AllocError>
        ensures { IfOk result (λ found. ListsPieces (lies spot (state_of self.now)) (vec_items found)) }
    {
        let mut found = Vec::new(self.heap);
        for (name, copies) in self.pieces.iter() {
            let there = match spot {
                Spot::Place => &copies.place,
                Spot::Aside => &copies.aside,
            };
            if let Some(bytes) = there {
                found.push(Lying {
                    name: *name,
                    length: bytes.len(),
                })?;
            }
        }
        Ok(found)
    }

    fn listed_names(&self) -> Result<Vec<Listing>, AllocError>
        ensures { IfOk result (λ found. ListsNames (state_of self.now).listed (vec_items found)) }
    {
        self.listed.iter().copied().collect(self.heap)
    }

    // The names in the sweeper's list.
    pub(crate) fn own_list(&self) -> Result<Vec<Digest>, AllocError>
        ensures { IfOk result (λ found. ListsOwn (state_of self.now).own (vec_items found)) }
    {
        self.own.iter().copied().collect(self.heap)
    }

    fn listed_days(&self) -> Result<Vec<ListedDay>, AllocError>
        ensures { IfOk result (λ found. ListsDays (state_of self.now).days (vec_items found)) }
    {
        let mut found = Vec::new(self.heap);
        for (name, file) in self.days.iter() {
            found.push(ListedDay {
                name: *name,
                file: Vec::from_slice(self.heap, file)?,
            })?;
        }
        Ok(found)
    }
}

// A name in the list of a machine.
use digest::Digest;

#[derive(Clone, Copy, Debug, PartialEq, Eq, PartialOrd, Ord)]
pub struct Listing {
    pub machine: u8,
    pub name: Digest,
}

// What is in a store, in words.
ghost use Rattle.std.specs.Prelude.{Some};
ghost use Rattle.store.specs.Texts.{listing_text, lying_text};

use crate::contents::Lying;
use crate::listing::Listing;
use std::fmt;

impl fmt::Display for Lying {
    ghost output = { λ x. Some (lying_text x) };

    fn fmt<W: fmt::Write>(&self, f: &mut fmt::Formatter<W>) -> fmt::Result {
        write!(f, "{} {}", self.name, self.length)
    }
}

impl fmt::Display for Listing {
    ghost output = { λ x. Some (listing_text x) };

    fn fmt<W: fmt::Write>(&self, f: &mut fmt::Formatter<W>) -> fmt::Result {
        write!(f, "{} {}", self.machine, self.name)
    }
}

//! Why words are refused.
use std::error::Error;
use std::fmt;

/// The word at `place`, from 0, is not as demanded; at the number of words, a key is missing.
#[derive(Clone, Copy, PartialEq, Eq, Debug)]
pub struct BadWord {
    pub place: u64,
}

impl fmt::Display for BadWord {
    ghost use Rattle.std.specs.Prelude.{Some, ◌++◌, codes, decimal};

    ghost output = { λ bad. Some (codes "the word at place " ++ (decimal bad.place ++ codes " is refused")) };

    fn fmt<W: fmt::Write>(&self, f: &mut fmt::Formatter<W>) -> fmt::Result {
        let place = self.place;
        write!(f, "the word at place {place} is refused")
    }
}

impl Error for BadWord {}

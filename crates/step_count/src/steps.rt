//! A count of steps.

use std::marker::Model;
use std::sync::ledger::{Blank, Book, Ledger, Share};

/// How many steps were taken. It takes no bytes, and only `tick` changes it.
///
/// A call that takes `&mut Steps<L>` says in its contract by how much it may grow. What a step is, it says in words.
///
/// A caller that counts nothing puts the call into a function over `L: Ledger` that takes a `Blank`, makes the count from
/// it by `new`, and calls that function as `counted::<Brand>(.., Blank::new(1))`, with `Brand` of `std::marker`. The caller
/// picks the ledger, that of the blank, in its `proofs/CALLER/Invariants.antt`:
/// `ghosts-counted a = record { name = a.blank.name; parts = a.blank.parts }`.
#[derive(Drop)]
pub struct Steps<L: Ledger> {
    book: Book<L>,
    share: Share<L>,
}

impl<L: Ledger> Model for Steps<L> {
    ghost use Rattle.std.specs.Prelude.{ℕ, ◌<◌};

    ghost Value = { ℕ };

    ghost view = { λ s. s.book.total };

    ghost invariant = { λ s. 0 < s.share.parts };
}

impl<L: Ledger> Steps<L> {
    ghost use Rattle.std.specs.Prelude.{◌≡◌, ◌+◌, ◌<◌};

    /// No steps yet, in the ledger that the blank is for.
    pub fn new(blank: Blank) -> Steps<L>
        requires name { blank.name ≡ L.name }
        requires parts { blank.parts ≡ L.parts }
        requires some { 0 < L.parts }
        ensures { result ≡ 0 }
    {
        let (book, share) = blank.open();
        Steps { book, share }
    }

    /// Counts one step.
    pub fn tick(&mut self)
        ensures { self.new ≡ self.old + 1 }
    {
        self.book.add(&mut self.share, 1);
    }
}

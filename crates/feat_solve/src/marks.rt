//! Literals that are put together and asked for.

ghost use Rattle.std.specs.Prelude.{◌≡◌, ◌++◌, ◌∷◌, ℤ, true, [], OnOk};
ghost use Rattle.spec_refutation.specs.Derivation.{has};
ghost use Rattle.feat_solve.specs.Tables.{marked};

use crate::flags::Flags;
use feat_proof::{Lit, NoMemory};
use std::alloc::Global;
use std::marker::Model;

/// A list of literals with a table of them, so that to ask for one and to put one in takes the same time
/// however many there are, and to empty the list a time by their number. Contracts see the list.
#[derive(Drop)]
pub struct Marks {
    members: Vec<Lit>,
    flags: Flags,
}

impl Model for Marks {
    ghost use Rattle.std.specs.Prelude.{List, ℤ};
    ghost use Rattle.feat_solve.specs.Tables.{Shows};

    ghost Value = { List ℤ };

    ghost view = { λ m. m.members.items };

    ghost invariant = { λ m. Shows m.flags m.members.items };
}

/// Takes the mark of each of these literals off.
fn clear_all(members: &mut Vec<Lit>, flags: &mut Flags)
    requires { (l : ℤ) → marked flags.old l ≡ true → has members.old.items l ≡ true }
    ensures none { members.new.items ≡ [] }
    ensures off { (l : ℤ) → marked flags.new l ≡ true → has [] l ≡ true }
{
    'out: while let Some(literal) = members.pop() {
        flags.unmark(literal);
    }
}

impl Marks {
    pub fn new(alloc: Global) -> Marks
        ensures { result ≡ [] }
    {
        Marks {
            members: Vec::new(alloc),
            flags: Flags::new(alloc),
        }
    }

    pub fn contains(&self, literal: Lit) -> bool
        ensures { result ≡ has self.now literal }
    {
        self.flags.has(literal)
    }

    pub fn insert(&mut self, literal: Lit) -> Result<(), NoMemory>
        ensures { OnOk result (self.new ≡ self.old ++ literal ∷ []) }
    {
        self.flags.make_room(literal)?;
        self.members.push(literal)?;
        self.flags.mark(literal);
        Ok(())
    }

    /// Leaves none.
    pub fn clear(&mut self)
        ensures { self.new ≡ [] }
    {
        clear_all(&mut self.members, &mut self.flags);
    }
}

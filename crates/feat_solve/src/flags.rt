//! A table with a mark for each literal.

ghost use Rattle.std.specs.Prelude.{◌≡◌, ◌+◌, ◌*◌, ◌<◌, ◌≤◌, ℕ, ℤ, true, false, [], cond, length, slice_index_or, OnOk};
ghost use Rattle.std.specs.Ordering.{int_eq};
ghost use Rattle.feat_solve.specs.Tables.{place, marked};

use feat_proof::{Lit, NoMemory};
use std::alloc::Global;
use std::marker::Model;

/// A mark for each literal, on or off. It takes as much room as the greatest variable asks for, and
/// each call but one that makes room takes the same time. Contracts see the list of marks.
#[derive(Drop)]
pub struct Flags {
    table: Vec<bool>,
}

impl Model for Flags {
    ghost use Rattle.std.specs.Prelude.{List, Bool};

    ghost Value = { List Bool };

    ghost view = { λ f. f.table.items };
}

/// The place of a literal in a table.
pub fn place_of(literal: Lit) -> usize
    ensures value { result ≡ place literal }
    ensures few { result < 4294967296 }
{
    let number = literal.number();
    let size = number.unsigned_abs() as usize;
    if number < 0 {
        return 2 * size - 1;
    }
    2 * size
}

/// Makes a table as long as this, by marks that are off.
fn grow(table: &mut Vec<bool>, count: usize) -> Result<(), NoMemory>
    ensures same { (k : ℕ) → slice_index_or table.new.items k false ≡ slice_index_or table.old.items k false }
    ensures room { OnOk result (count ≤ length table.new.items) }
{
    'more: while table.len() < count {
        table.push(false)?;
    }
    Ok(())
}

impl Flags {
    pub fn new(alloc: Global) -> Flags
        ensures { result ≡ [] }
    {
        Flags {
            table: Vec::new(alloc),
        }
    }

    /// Whether the literal's mark is on.
    pub fn has(&self, literal: Lit) -> bool
        ensures { result ≡ marked self.now literal }
    {
        let place = place_of(literal);
        place < self.table.len() && self.table[place]
    }

    /// Makes room for the literal's mark.
    pub fn make_room(&mut self, literal: Lit) -> Result<(), NoMemory>
        ensures same { (l : ℤ) → marked self.new l ≡ marked self.old l }
        ensures room { OnOk result (place literal < length self.new) }
    {
        grow(&mut self.table, place_of(literal) + 1)
    }

    /// Puts the literal's mark on.
    pub fn mark(&mut self, literal: Lit)
        requires { place literal < length self.old }
        ensures { (l : ℤ) → marked self.new l ≡ cond (int_eq l literal) true (marked self.old l) }
    {
        let place = place_of(literal);
        self.table[place] = true;
    }

    /// Puts the literal's mark off.
    pub fn unmark(&mut self, literal: Lit)
        ensures { (l : ℤ) → marked self.new l ≡ cond (int_eq l literal) false (marked self.old l) }
    {
        let place = place_of(literal);
        if place < self.table.len() {
            self.table[place] = false;
        }
    }
}

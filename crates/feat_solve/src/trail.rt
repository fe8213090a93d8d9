//! The trail of a search.

ghost use Rattle.std.specs.Prelude.{◌≡◌, ◌+◌, ◌<◌, ◌≤◌, ◌++◌, ℕ, ℤ, pos, neg_ℤ, Bool, true, false, ◌||◌, [], ◌∷◌, reverse, Some, None, length, IfOk, OnOk, MatchOption, slice_get};
ghost use Rattle.std.specs.Vec.{vec_len, vec_capacity};
ghost use Rattle.spec_refutation.specs.Derivation.{has};
ghost use Rattle.feat_solve.specs.Trail.{Entry, literals, valued, below, last_decided, Complete};
ghost use Rattle.feat_solve.specs.Tables.{marked, IsTabled};

use crate::entries::Entry;
use crate::flags::Flags;
use crate::variables::{positive, variable};
use feat_proof::{Lit, NoMemory};
use std::alloc::Global;
use std::marker::Model;

/// The literals that are true. Contracts see the newest first.
///
/// Beside them stand the decided ones, a table of all, and a variable below which each has a value.
#[derive(Drop)]
pub struct Trail {
    entries: Vec<Entry>,
    decided: Vec<Lit>,
    on: Flags,
    least: u32,
}

impl Model for Trail {
    ghost use Rattle.std.specs.Prelude.{List, ℤ, ℕ, Option, reverse};
    ghost use Rattle.feat_solve.specs.Tables.{IsKept};

    ghost Value = { List (ℤ × Option ℕ) };

    ghost view = { λ t. reverse t.entries.items };

    ghost invariant = { λ t. IsKept (reverse t.entries.items) t.decided.items t.on t.least };
}

impl Trail {
    pub fn new(alloc: Global) -> Trail
        ensures { result ≡ [] }
    {
        Trail {
            entries: Vec::new(alloc),
            decided: Vec::new(alloc),
            on: Flags::new(alloc),
            least: 1,
        }
    }

    /// The number of literals that are true.
    pub fn len(&self) -> usize
        ensures { result ≡ length self.now }
    {
        self.entries.len()
    }

    /// The number of decisions among them.
    pub fn levels(&self) -> usize {
        self.decided.len()
    }

    /// The entries, oldest first.
    pub fn entries(&self) -> &[Entry]
        ensures { reverse result.now ≡ self.now }
    {
        &self.entries
    }

    /// Whether the literal is true.
    pub fn has(&self, literal: Lit) -> bool
        ensures { result ≡ has (literals self.now) literal }
    {
        self.on.has(literal)
    }

    /// Adds a literal that is decided.
    pub fn decide(&mut self, literal: Lit) -> Result<(), NoMemory>
        requires { has (literals self.old) literal ≡ false }
        ensures { OnOk result (self.new ≡ (literal, None) ∷ self.old) }
    {
        self.on.make_room(literal)?;
        self.decided.reserve(1)?;
        self.entries.push(Entry {
            literal,
            reason: None,
        })?;
        self.on.mark(literal);
        push_within(&mut self.decided, literal);
        Ok(())
    }

    /// Adds a literal that the clause of this number forces.
    pub fn force(&mut self, literal: Lit, number: u64) -> Result<(), NoMemory>
        requires { has (literals self.old) literal ≡ false }
        ensures { OnOk result (self.new ≡ (literal, Some number) ∷ self.old) }
    {
        self.on.make_room(literal)?;
        self.entries.push(Entry {
            literal,
            reason: Some(number),
        })?;
        self.on.mark(literal);
        Ok(())
    }

    /// Takes back the entries down to the last decision, and answers its literal, if there is one.
    pub fn take_back(&mut self) -> Option<Lit>
        ensures trail { self.new ≡ below self.old }
        ensures decision { result ≡ last_decided self.old }
    {
        unwind(&mut self.entries, &mut self.on, &mut self.least);
        self.decided.pop()
    }

    /// The last decision's literal.
    pub fn last_decision(&self) -> Option<Lit>
        ensures { result ≡ last_decided self.now }
    {
        self.decided.last().copied()
    }

    /// The least variable without a value.
    pub fn free_variable(&mut self, vars: u32) -> Option<u32>
        requires { vars ≤ 2147483647 }
        ensures same { self.new ≡ self.old }
        ensures free { MatchOption result (Complete vars self.old) (λ x. (0 < x) × (x ≤ vars) × (valued self.old x ≡ false)
            × ((y : ℕ) → 0 < y → y < x → valued self.old y ≡ true)) }
    {
        self.least = first_unmarked(&self.on, self.least, vars);
        if self.least <= vars {
            return Some(self.least);
        }
        None
    }
}

/// Adds a literal where there is room.
fn push_within(literals: &mut Vec<Lit>, literal: Lit)
    requires { vec_len literals.old < vec_capacity literals.old }
    ensures { literals.new.items ≡ literals.old.items ++ literal ∷ [] }
{
    match literals.push(literal) {
        Ok(()) => {}
        Err(_) => unreachable!(),
    }
}

/// The first variable from this one on of which neither literal is marked, or one beyond all.
fn first_unmarked(on: &Flags, from: u32, vars: u32) -> u32
    requires some { 0 < from }
    requires few { vars ≤ 2147483647 }
    ensures after { from ≤ result }
    ensures before { (x : ℕ) → from ≤ x → x < result → (marked on.now (pos x) || marked on.now (neg_ℤ (pos x))) ≡ true }
    ensures here { result ≤ vars → (marked on.now (pos result) || marked on.now (neg_ℤ (pos result))) ≡ false }
{
    let mut at = from;
    'next: while at <= vars && has_either(on, at) {
        at += 1;
    }
    at
}

/// Whether the variable or its negation is marked.
fn has_either(on: &Flags, variable: u32) -> bool
    requires some { 0 < variable }
    requires few { variable ≤ 2147483647 }
    ensures { result ≡ (marked on.now (pos variable) || marked on.now (neg_ℤ (pos variable))) }
{
    let literal = positive(variable);
    on.has(literal) || on.has(literal.negated())
}

/// Takes entries back down to the last decision.
fn unwind(entries: &mut Vec<Entry>, on: &mut Flags, least: &mut u32)
    requires tabled { IsTabled (reverse entries.old.items) on.old least.old }
    ensures trail { reverse entries.new.items ≡ below (reverse entries.old.items) }
    ensures tabled { IsTabled (reverse entries.new.items) on.new least.new }
{
    'down: while let Some(entry) = entries.pop() {
        on.unmark(entry.literal);
        *least = (*least).min(variable(entry.literal));
        if entry.reason.is_none() {
            return;
        }
    }
}

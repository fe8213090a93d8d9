//! The two literals that each clause watches.

use crate::flags::place_of;
use crate::trail::Trail;
use feat_proof::{Clause, Known, Lit, NoMemory};
use std::alloc::Global;
use std::mem;

/// Two different literals of each clause that has two: only once one of them is false can the clause force
/// a literal or be falsified.
#[derive(Drop)]
pub struct Watched {
    /// For each literal, by its place, the numbers of the clauses that watch it.
    watchers: Vec<Vec<u64>>,
    /// For each clause, by its number, the two that it watches.
    pairs: Vec<Option<Pair>>,
}

/// Two literals that a clause watches.
#[derive(Clone, Copy)]
pub struct Pair {
    pub first: Lit,
    pub second: Lit,
}

/// What becomes of a clause of which a watched literal is false.
#[derive(Drop)]
pub enum Visit {
    /// It watches another literal now.
    Moved,
    /// The other watched literal is true.
    True,
    /// There is no other literal to watch: it may force one, or be falsified.
    Open,
}

/// The first two literals of a clause that differ.
pub fn first_two(clause: &[Lit]) -> Option<Pair> {
    let first = *clause.first()?;
    for literal in clause {
        if *literal != first {
            return Some(Pair {
                first,
                second: *literal,
            });
        }
    }
    None
}

/// A literal of the clause that is not false, other than this one.
fn replacement(clause: &[Lit], other: Lit, trail: &Trail) -> Option<Lit> {
    for literal in clause {
        if *literal != other && !trail.has(literal.negated()) {
            return Some(*literal);
        }
    }
    None
}

impl Watched {
    pub fn new(alloc: Global, vars: u32, clauses: &[Clause]) -> Result<Watched, NoMemory> {
        let mut watchers: Vec<Vec<u64>> = Vec::new(alloc);
        for _place in 0..2 * (vars as u64 + 1) {
            watchers.push(Vec::new(alloc))?;
        }
        let mut watched = Watched {
            watchers,
            pairs: Vec::new(alloc),
        };
        for clause in clauses {
            watched.add(first_two(clause.literals()))?;
        }
        Ok(watched)
    }

    /// Adds the next clause, with its two literals.
    pub fn add(&mut self, pair: Option<Pair>) -> Result<(), NoMemory> {
        let number = self.pairs.len() as u64 + 1;
        match pair {
            Some(two) => {
                self.watch(two.first, number)?;
                self.watch(two.second, number)?;
                self.pairs.push(Some(two))?;
            }
            None => self.pairs.push(None)?,
        }
        Ok(())
    }

    fn watch(&mut self, literal: Lit, number: u64) -> Result<(), NoMemory> {
        if let Some(watchers) = self.watchers.get_mut(place_of(literal)) {
            watchers.push(number)?;
        }
        Ok(())
    }

    /// The clauses that watch a literal, which are to be put back.
    pub fn take_watchers(&mut self, alloc: Global, literal: Lit) -> Vec<u64> {
        match self.watchers.get_mut(place_of(literal)) {
            Some(watchers) => mem::replace(watchers, Vec::new(alloc)),
            None => Vec::new(alloc),
        }
    }

    pub fn put_watchers(&mut self, literal: Lit, taken: Vec<u64>) {
        if let Some(watchers) = self.watchers.get_mut(place_of(literal)) {
            *watchers = taken;
        }
    }

    /// The other literal that the clause of this number watches.
    fn other(&self, number: u64, literal: Lit) -> Option<Lit> {
        let place = number.checked_sub(1)? as usize;
        let pair = (*self.pairs.get(place)?)?;
        if pair.first == literal {
            return Some(pair.second);
        }
        Some(pair.first)
    }

    /// Looks for another literal to watch in place of one that is false.
    pub fn visit(
        &mut self,
        number: u64,
        off: Lit,
        known: &Known<'_>,
        trail: &Trail,
    ) -> Result<Visit, NoMemory> {
        let Some(other) = self.other(number, off) else {
            return Ok(Visit::Open);
        };
        if trail.has(other) {
            return Ok(Visit::True);
        }
        let Some(clause) = known.clause(number) else {
            return Ok(Visit::Open);
        };
        let Some(literal) = replacement(clause, other, trail) else {
            return Ok(Visit::Open);
        };
        self.watch(literal, number)?;
        self.put_pair(
            number,
            Pair {
                first: other,
                second: literal,
            },
        );
        Ok(Visit::Moved)
    }

    /// Notes the two literals that the clause of this number watches.
    fn put_pair(&mut self, number: u64, pair: Pair) {
        if let Some(place) = number.checked_sub(1) {
            if let Some(own) = self.pairs.get_mut(place as usize) {
                *own = Some(pair);
            }
        }
    }
}

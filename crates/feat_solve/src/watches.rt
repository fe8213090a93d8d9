//! Where to look for what the trail makes of clauses.

ghost use Rattle.std.specs.Prelude.{◌≡◌, ◌+◌, IfOk};
ghost use Rattle.std.specs.Vec.{vec_len};
ghost use Rattle.feat_solve.specs.Trail.{literals};
ghost use Rattle.feat_solve.specs.Looks.{LookIs};

use crate::looking::{Look, look_at_numbered};
use crate::trail::Trail;
use crate::watched::{Pair, Visit, Watched};
use feat_proof::{Clause, Known, Lit, NoMemory};
use std::alloc::Global;

/// How far the clauses have been looked at.
///
/// Each clause is looked at once. From then on a new literal of the trail costs a look at the clauses
/// that watch its negation, and what is taken back costs nothing. No answer of the solver rests on it:
/// what is found is looked at anew, and a model is told only after a look over all clauses.
#[derive(Drop)]
pub struct Watches {
    watched: Watched,
    /// How many clauses there are besides the learnt ones.
    own: u64,
    /// How many of them have been looked at once.
    begun: u64,
    /// The number of a learnt clause that is to be looked at next, or 0.
    asked: u64,
    /// How many of the oldest literals of the trail have been followed.
    followed: usize,
    /// How many of those that watch the next one's negation have been looked at.
    looked: usize,
}

impl Watches {
    pub fn new(alloc: Global, vars: u32, clauses: &[Clause]) -> Result<Watches, NoMemory> {
        let watched = Watched::new(alloc, vars, clauses)?;
        Ok(Watches {
            watched,
            own: clauses.len() as u64,
            begun: 0,
            asked: 0,
            followed: 0,
            looked: 0,
        })
    }

    /// Adds a learnt clause, with the two literals that it watches, if there are two.
    pub fn add(&mut self, pair: Option<Pair>) -> Result<(), NoMemory> {
        self.watched.add(pair)
    }

    /// Has the learnt clause of this number looked at next.
    pub fn ask(&mut self, number: u64) {
        self.asked = number;
    }

    /// Of a trail that has been taken back to so many literals, no more have been followed.
    pub fn go_back(&mut self, entries: usize) {
        self.followed = self.followed.min(entries);
        self.looked = 0;
    }

    /// Goes on looking, until something is found or all has been looked at.
    pub fn look(
        &mut self,
        alloc: Global,
        known: &Known<'_>,
        trail: &Trail,
    ) -> Result<Look, NoMemory>
        ensures { IfOk result (λ l. LookIs known.now (literals trail.now) l) }
    {
        if self.asked > 0 {
            let number = self.asked;
            self.asked = 0;
            match look_at_numbered(known, number, trail) {
                Look::Quiet => {}
                found => return Ok(found),
            }
        }
        for number in self.begun..self.own {
            self.begun = number + 1;
            match look_at_numbered(known, number + 1, trail) {
                Look::Quiet => {}
                found => return Ok(found),
            }
        }
        for at in self.followed..trail.len() {
            self.followed = at;
            match self.follow(alloc, at, known, trail)? {
                Look::Quiet => {}
                found => return Ok(found),
            }
            self.followed = at + 1;
            self.looked = 0;
        }
        Ok(Look::Quiet)
    }

    /// Looks at the clauses that watch the negation of the literal at this place of the trail.
    fn follow(
        &mut self,
        alloc: Global,
        at: usize,
        known: &Known<'_>,
        trail: &Trail,
    ) -> Result<Look, NoMemory>
        ensures { IfOk result (λ l. LookIs known.now (literals trail.now) l) }
    {
        let Some(entry) = trail.entries().get(at) else {
            return Ok(Look::Quiet);
        };
        let off = entry.literal.negated();
        let mut watchers = self.watched.take_watchers(alloc, off);
        let found = look_through(
            &mut self.watched,
            &mut watchers,
            &mut self.looked,
            off,
            known,
            trail,
        )?;
        self.watched.put_watchers(off, watchers);
        Ok(found)
    }
}

/// Looks at the rest of the clauses that watch a literal which is false. Those that find another literal to
/// watch leave the list.
fn look_through(
    watched: &mut Watched,
    watchers: &mut Vec<u64>,
    looked: &mut usize,
    off: Lit,
    known: &Known<'_>,
    trail: &Trail,
) -> Result<Look, NoMemory>
    ensures { IfOk result (λ l. LookIs known.now (literals trail.now) l) }
{
    'each: while *looked < watchers.len() {
        let number = watchers[*looked];
        match watched.visit(number, off, known, trail)? {
            Visit::Moved => {
                watchers.swap_remove(*looked);
            }
            Visit::True => *looked += 1,
            Visit::Open => {
                *looked += 1;
                match look_at_numbered(known, number, trail) {
                    Look::Quiet => {}
                    found => return Ok(found),
                }
            }
        }
    }
    Ok(Look::Quiet)
}

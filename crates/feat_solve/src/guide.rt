//! Where a walk down the trail cuts chains of reasons.

use crate::entries::Entry;
use crate::marks::Marks;
use feat_proof::{Known, NoMemory};
use std::alloc::Global;

/// Which forced literals a learnt clause keeps, in place of what forced them: the first literal of the last
/// level through which all of the conflict goes, and each literal of a level below. The literals that stand
/// under no decision are never kept.
///
/// Whatever is kept, the clause follows. A good choice makes it short and of use elsewhere.
#[derive(Drop)]
pub struct Guide {
    /// The literals of the last level.
    last: Marks,
    /// How many of them are needed, and are still to come.
    open: usize,
    /// How many decisions are still to come.
    levels: usize,
    /// Whether a forced literal has been kept.
    cuts: bool,
}

impl Guide {
    /// The guide of a walk down this trail, which has so many decisions.
    pub fn new(alloc: Global, entries: &[Entry], levels: usize) -> Result<Guide, NoMemory> {
        let mut last = Marks::new(alloc);
        for entry in entries.iter().rev() {
            last.insert(entry.literal)?;
            if entry.reason.is_none() {
                break;
            }
        }
        Ok(Guide {
            last,
            open: 0,
            levels,
            cuts: false,
        })
    }

    /// Whether a forced literal has been kept.
    pub fn has_cut(&self) -> bool {
        self.cuts
    }

    /// Counts what the clause of this number asks for in the last level.
    pub fn follow(&mut self, known: &Known<'_>, number: u64, needed: &Marks) {
        if let Some(clause) = known.clause(number) {
            for literal in clause {
                let cause = literal.negated();
                if self.last.contains(cause) && !needed.contains(cause) {
                    self.open = self.open.saturating_add(1);
                }
            }
        }
    }

    /// Whether the next entry of the walk is kept, if it is needed.
    pub fn keeps(&mut self, entry: &Entry, known: &Known<'_>, needed: &Marks) -> bool {
        let Some(number) = entry.reason else {
            self.levels = self.levels.saturating_sub(1);
            return true;
        };
        if !needed.contains(entry.literal) {
            return false;
        }
        let kept = if self.last.contains(entry.literal) {
            self.open <= 1
        } else {
            self.levels > 0
        };
        self.open = self.open.saturating_sub(1);
        if kept {
            self.cuts = true;
        } else {
            self.follow(known, number, needed);
        }
        kept
    }
}

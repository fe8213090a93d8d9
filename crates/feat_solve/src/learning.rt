//! What a conflict teaches.

ghost use Rattle.std.specs.Prelude.{◌≡◌, [], ◌∷◌, ◌++◌, Bool, List, map, reverse, neg_ℤ, OnOk, IfOk};
ghost use Rattle.spec_refutation.specs.Derivation.{has};
ghost use Rattle.feat_solve.specs.Trail.{Entry};
ghost use Rattle.feat_solve.specs.Learnt.{causes, is_cut, cuts_below, grounds, chain, learnt, settled};

use crate::entries::Entry;
use crate::guide::Guide;
use crate::marks::Marks;
use crate::trail::Trail;
use feat_proof::{Clause, Known, Lit, NoMemory, Step};
use std::alloc::Global;

/// Marks the negations of a clause's literals.
fn mark_causes(known: &Known<'_>, number: u64, needed: &mut Marks) -> Result<(), NoMemory>
    ensures { OnOk result (needed.new ≡ needed.old ++ causes known.now number) }
{
    let Some(clause) = known.clause(number) else {
        return Ok(());
    };
    for literal in clause {
        needed.insert(literal.negated())?;
    }
    Ok(())
}

/// Takes up one entry, if it is needed: a decision and an entry that is kept as a literal of the clause, any
/// other by its reason.
fn visit(
    entry: &Entry,
    kept: bool,
    known: &Known<'_>,
    needed: &mut Marks,
    clause: &mut Vec<Lit>,
    hints: &mut Vec<u64>,
) -> Result<(), NoMemory>
    ensures clause { OnOk result ((cuts : List Bool) (es : List Entry) → is_cut cuts ≡ kept →
        clause.new.items ++ map neg_ℤ (grounds known.now (cuts_below cuts) needed.new es)
        ≡ clause.old.items ++ map neg_ℤ (grounds known.now cuts needed.old (entry.now ∷ es))) }
    ensures hints { OnOk result ((cuts : List Bool) (es : List Entry) → is_cut cuts ≡ kept →
        hints.new.items ++ chain known.now (cuts_below cuts) needed.new es
        ≡ hints.old.items ++ chain known.now cuts needed.old (entry.now ∷ es)) }
{
    if !needed.contains(entry.literal) {
        return Ok(());
    }
    let Some(number) = entry.reason else {
        clause.push(entry.literal.negated())?;
        return Ok(());
    };
    if kept {
        clause.push(entry.literal.negated())?;
        return Ok(());
    }
    hints.push(number)?;
    mark_causes(known, number, needed)?;
    Ok(())
}

/// The step that teaches on which decisions the conflict depends: their negations, with the reasons of the
/// forced literals between as hints, in the order of the trail.
pub fn learn(
    alloc: Global,
    entries: &[Entry],
    known: &Known<'_>,
    conflict: u64,
    marks: &mut Marks,
) -> Result<Step, NoMemory>
    ensures { IfOk result (λ s. s ≡ learnt known.now [] (reverse entries.now) conflict) }
{
    marks.clear();
    mark_causes(known, conflict, marks)?;
    let mut clause: Vec<Lit> = Vec::new(alloc);
    let mut hints: Vec<u64> = Vec::new(alloc);
    hints.push(conflict)?;
    let mut left = entries.len();
    'walk: while left > 0 {
        left -= 1;
        visit(&entries[left], false, known, marks, &mut clause, &mut hints)?;
    }
    hints.reverse();
    Ok(Step::from_parts(Clause::from_vec(clause), hints))
}

/// The step that teaches by which literals the conflict can be told, as the guide keeps them.
pub fn learn_kept(
    alloc: Global,
    entries: &[Entry],
    known: &Known<'_>,
    conflict: u64,
    marks: &mut Marks,
    guide: &mut Guide,
) -> Result<Step, NoMemory>
    ensures { IfOk result (λ s. (cuts : List Bool) × (s ≡ learnt known.now cuts (reverse entries.now) conflict)) }
{
    marks.clear();
    guide.follow(known, conflict, marks);
    mark_causes(known, conflict, marks)?;
    let mut clause: Vec<Lit> = Vec::new(alloc);
    let mut hints: Vec<u64> = Vec::new(alloc);
    hints.push(conflict)?;
    let mut left = entries.len();
    'walk: while left > 0 {
        left -= 1;
        let kept = guide.keeps(&entries[left], known, marks);
        visit(&entries[left], kept, known, marks, &mut clause, &mut hints)?;
    }
    hints.reverse();
    Ok(Step::from_parts(Clause::from_vec(clause), hints))
}

/// Marks the literals of a clause, and no other.
pub fn mark_clause(clause: &[Lit], marks: &mut Marks) -> Result<(), NoMemory>
    ensures { OnOk result (marks.new ≡ clause.now) }
{
    marks.clear();
    for literal in clause {
        marks.insert(*literal)?;
    }
    Ok(())
}

/// Takes levels back while the clause does not have the negation of their decision.
pub fn settle(trail: &mut Trail, clause: &Marks)
    ensures { trail.new ≡ settled clause.now trail.old trail.old }
{
    'levels: while let Some(decision) = trail.last_decision() {
        if clause.contains(decision.negated()) {
            return;
        }
        trail.take_back();
    }
}

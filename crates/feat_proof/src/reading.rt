//! The text of a log, read.

ghost use Rattle.std.specs.Prelude.{◌≡◌, ◌≢◌, ◌+◌, ◌≤◌, ℕ, ℤ, List, [], length, IfOk, IfErr};
ghost use Rattle.std.specs.Bool.{OnTrue, OnFalse};
ghost use Rattle.spec_refutation.specs.Derivation.{Step};
ghost use Rattle.spec_refutation.specs.Reading.{Reads, IsFault};
ghost use Rattle.spec_refutation.specs.Scans.{ClausesEnd, StepsEnd, LinesEnd};
ghost use Rattle.feat_proof.specs.Answers.{ReadsAs, RefusedAt};

use crate::clauses::Clause;
use crate::counts::{Counts, first_line};
use crate::faults::{LogFault, NoMemory};
use crate::formula::Cnf;
use crate::lines::{clause_line, step_line};
use crate::logs::Log;
use crate::room;
use crate::steps::Step;
use std::alloc::Global;

/// The clauses whose lines are at the front, at most `count`, and the bytes after the lines.
fn clauses(
    alloc: Global,
    text: &[u8],
    vars: u32,
    count: u64,
) -> Result<(Vec<Clause>, &[u8]), NoMemory>
    requires { vars ≤ 2147483647 }
    ensures { IfOk result (λ r. ClausesEnd vars count text.now r.0.items r.1.now) }
{
    let mut clauses = Vec::with_capacity(alloc, room::lines(text, b'c', count))?;
    let mut rest = text;
    'lines: while (clauses.len() as u64) < count {
        let Some((clause, after)) = clause_line(alloc, rest, vars)? else {
            return Ok((clauses, rest));
        };
        clauses.push(clause)?;
        rest = after;
    }
    Ok((clauses, rest))
}

/// The steps whose lines are at the front, at most `count`, and the bytes after the lines.
fn steps(
    alloc: Global,
    text: &[u8],
    vars: u32,
    lines: u64,
    count: u64,
) -> Result<(Vec<Step>, &[u8]), NoMemory>
    requires { vars ≤ 2147483647 }
    ensures { IfOk result (λ r. StepsEnd vars lines count text.now r.0.items r.1.now) }
{
    let mut steps = Vec::with_capacity(alloc, room::lines(text, b's', count))?;
    let mut rest = text;
    'lines: while (steps.len() as u64) < count {
        let Some((step, after)) = step_line(alloc, rest, vars, lines)? else {
            return Ok((steps, rest));
        };
        steps.push(step)?;
        rest = after;
    }
    Ok((steps, rest))
}

/// The clauses and the steps at the front, at most as many as were counted, and the bytes after.
fn lines(alloc: Global, counts: Counts, text: &[u8]) -> Result<(Cnf, Log, &[u8]), NoMemory>
    requires vars { counts.vars ≤ 2147483647 }
    requires lines { counts.lines ≡ counts.clauses + counts.steps }
    ensures vars { IfOk result (λ r. r.0.0 ≡ counts.vars) }
    ensures ends { IfOk result (λ r.
        LinesEnd counts.vars counts.clauses counts.steps text.now r.0.1 r.1 r.2.now) }
{
    let (clauses, rest) = clauses(alloc, text, counts.vars, counts.clauses)?;
    if (clauses.len() as u64) < counts.clauses {
        return Ok((
            Cnf::from_parts(counts.vars, clauses),
            Log::from_vec(Vec::new(alloc)),
            rest,
        ));
    }
    let (steps, rest) = steps(alloc, rest, counts.vars, counts.lines, counts.steps)?;
    Ok((
        Cnf::from_parts(counts.vars, clauses),
        Log::from_vec(steps),
        rest,
    ))
}

/// Whether all that was counted has been read, and nothing is left.
fn is_whole(counts: Counts, cnf: &Cnf, log: &Log, rest: &[u8]) -> bool
    ensures whole { OnTrue result
        ((length cnf.now.1 ≡ counts.clauses) × (length log.now ≡ counts.steps) × (rest.now ≡ [])) }
    ensures part { OnFalse result
        (length cnf.now.1 ≡ counts.clauses → length log.now ≡ counts.steps → rest.now ≢ []) }
{
    cnf.clauses().len() as u64 == counts.clauses
        && log.steps().len() as u64 == counts.steps
        && rest.is_empty()
}

/// The clauses and the log whose text this is.
fn parsed(alloc: Global, text: &[u8]) -> Result<(Cnf, Log), LogFault>
    ensures log { IfOk result (λ r. Reads text.now r.0.0 r.0.1 r.1) }
    ensures syntax { IfErr result (λ e. (at : ℕ) → e ≡ LogFault.Syntax at → IsFault text.now at) }
{
    let Some((counts, rest)) = first_line(text) else {
        return Err(LogFault::Syntax { at: 0 });
    };
    let (cnf, log, rest) = lines(alloc, counts, rest)?;
    if is_whole(counts, &cnf, &log, rest) {
        return Ok((cnf, log));
    }
    let at = (text.len() - rest.len()) as u64;
    Err(LogFault::Syntax { at })
}

/// The clauses and the log whose text this is. A text that is no log's is refused at the first byte of
/// its first line that is not as the format demands, at the text's length where a line is missing, or
/// at the first byte after the last line. A line without its line feed is not as demanded.
pub fn read_log(alloc: Global, text: &[u8]) -> Result<(Cnf, Log), LogFault>
    // What is read has this text, and a refused text has its fault there.
    ensures log { IfOk result (λ r. Reads text.now r.0.0 r.0.1 r.1) }
    ensures syntax { IfErr result (λ e. (at : ℕ) → e ≡ LogFault.Syntax at → IsFault text.now at) }

    // Unless memory runs out, a log's text is read as that log, and one with a fault is refused there.
    ensures each_log { (vars : ℕ) (clauses : List (List ℤ)) (steps : List Step) →
        Reads text.now vars clauses steps → ReadsAs result vars clauses steps }
    ensures each_fault { (at : ℕ) → IsFault text.now at → RefusedAt result at }
{
    parsed(alloc, text)
}

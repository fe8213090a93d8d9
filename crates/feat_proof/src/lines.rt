//! The lines of a log's text, each read at the front of a text.

ghost use Rattle.std.specs.Prelude.{◌≡◌, ◌≤◌, ◌++◌, IfOk, IfSome, IfNone};
ghost use Rattle.spec_refutation.specs.Text.{clause_line, step_line};
ghost use Rattle.spec_refutation.specs.Reading.{IsClause, IsStep, NoClauseLine, NoStepLine};
ghost use Rattle.spec_refutation.specs.Scans.{LiteralsEnd, HintsEnd};

use crate::clauses::Clause;
use crate::faults::NoMemory;
use crate::room::spaces;
use crate::scanning::{after, spaced_literal, spaced_number};
use crate::steps::Step;
use std::alloc::Global;

/// The literals at the front, each after a space, and the bytes after them. There is room for so many at once.
fn literals(alloc: Global, text: &[u8], vars: u32, room: usize) -> Result<(Clause, &[u8]), NoMemory>
    requires { vars ≤ 2147483647 }
    ensures { IfOk result (λ r. LiteralsEnd vars text.now r.0 r.1.now) }
{
    let mut literals = Vec::with_capacity(alloc, room)?;
    let mut rest = text;
    'literals: while let Some((literal, after)) = spaced_literal(rest, vars) {
        literals.push(literal)?;
        rest = after;
    }
    Ok((Clause::from_vec(literals), rest))
}

/// The hints at the front, each after a space, and the bytes after them.
fn hints(alloc: Global, text: &[u8], lines: u64) -> Result<(Vec<u64>, &[u8]), NoMemory>
    ensures { IfOk result (λ r. HintsEnd lines text.now r.0.items r.1.now) }
{
    let mut hints = Vec::with_capacity(alloc, spaces(text))?;
    let mut rest = text;
    'hints: while let Some((hint, after)) = spaced_number(rest, 1, lines) {
        hints.push(hint)?;
        rest = after;
    }
    Ok((hints, rest))
}

/// The clause whose line is at the front, and the bytes after the line.
pub fn clause_line(
    alloc: Global,
    text: &[u8],
    vars: u32,
) -> Result<Option<(Clause, &[u8])>, NoMemory>
    requires { vars ≤ 2147483647 }
    ensures found { IfOk result (λ line. IfSome line (λ r. text.now ≡ clause_line r.0 ++ r.1.now)) }
    ensures within { IfOk result (λ line. IfSome line (λ r. IsClause vars r.0)) }
    ensures none { IfOk result (λ line. IfNone line (NoClauseLine vars text.now)) }
{
    let Some(rest) = after(text, b'c') else {
        return Ok(None);
    };
    let (clause, rest) = literals(alloc, rest, vars, spaces(rest))?;
    let Some(rest) = after(rest, b'\n') else {
        return Ok(None);
    };
    Ok(Some((clause, rest)))
}

/// The step whose line is at the front, and the bytes after the line.
pub fn step_line(
    alloc: Global,
    text: &[u8],
    vars: u32,
    lines: u64,
) -> Result<Option<(Step, &[u8])>, NoMemory>
    requires { vars ≤ 2147483647 }
    ensures found { IfOk result (λ line. IfSome line (λ r. text.now ≡ step_line r.0 ++ r.1.now)) }
    ensures within { IfOk result (λ line. IfSome line (λ r. IsStep vars lines r.0)) }
    ensures none { IfOk result (λ line. IfNone line (NoStepLine vars lines text.now)) }
{
    let Some(rest) = after(text, b's') else {
        return Ok(None);
    };
    // One of the spaces stands before the colon.
    let (clause, rest) = literals(alloc, rest, vars, spaces(rest).saturating_sub(1))?;
    let Some(rest) = after(rest, b' ') else {
        return Ok(None);
    };
    let Some(rest) = after(rest, b':') else {
        return Ok(None);
    };
    let (hints, rest) = hints(alloc, rest, lines)?;
    let Some(rest) = after(rest, b'\n') else {
        return Ok(None);
    };
    Ok(Some((Step::from_parts(clause, hints), rest)))
}

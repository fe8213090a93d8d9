//! The first line of a log's text.

ghost use Rattle.std.specs.Prelude.{◌≡◌, ◌+◌, ◌++◌, IfSome, IfNone};
ghost use Rattle.spec_refutation.specs.Text.{first_line};
ghost use Rattle.spec_refutation.specs.Reading.{AreCounts, NoFirstLine};

use crate::scanning::{after, spaced_number};

/// How many variables a log has at most.
const MOST_VARS: u64 = 2_147_483_647;

/// What the first line says: the numbers of variables, of clauses, of steps, and of clauses and
/// steps together.
#[derive(Clone, Copy)]
pub struct Counts {
    pub vars: u32,
    pub clauses: u64,
    pub steps: u64,
    pub lines: u64,
}

/// The counts in the first line, and the bytes after the line.
pub fn first_line(text: &[u8]) -> Option<(Counts, &[u8])>
    ensures lines { IfSome result (λ r. r.0.lines ≡ r.0.clauses + r.0.steps) }
    ensures counts { IfSome result (λ r. AreCounts r.0.vars r.0.clauses r.0.steps) }
    ensures found { IfSome result (λ r.
        text.now ≡ first_line r.0.vars r.0.clauses r.0.steps ++ r.1.now) }
    ensures none { IfNone result (NoFirstLine text.now) }
{
    let rest = after(text, b'p')?;
    let (vars, rest) = spaced_number(rest, 0, MOST_VARS)?;
    let (clauses, rest) = spaced_number(rest, 0, u64::MAX)?;
    let (steps, rest) = spaced_number(rest, 0, u64::MAX)?;
    let rest = after(rest, b'\n')?;
    let lines = clauses.checked_add(steps)?;
    let vars = vars as u32;
    Some((
        Counts {
            vars,
            clauses,
            steps,
            lines,
        },
        rest,
    ))
}

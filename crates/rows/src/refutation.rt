//! Whether what is said is a refutation as it is wanted: with these numbers and clauses, and accepted by `proof`.
use crate::came::Came;
use crate::play::proved;
use row_tables::{Refutes, Stop, Wanted, push_text};
use std::alloc::Global;
use std::rt::Files;
use std::thread::Threads;

/// The number of steps that a status tells, as its `Debug` writes it.
fn told_steps(answer: &str) -> Option<&str> {
    answer.strip_prefix("Refuted { steps: ")?.strip_suffix(" }")
}

/// How the text has to begin: its numbers, and the clauses that the row gives.
fn beginning(
    alloc: Global,
    refutes: Refutes,
    wanted: &Wanted,
    steps: &str,
) -> Result<Vec<u8>, Stop> {
    let variables = refutes.variables;
    let clauses = refutes.clauses;
    let first = format!(in alloc; "p {variables} {clauses} {steps}\n")?;
    let mut text = first.as_bytes().to_vec(alloc)?;
    text.extend_from_slice(&wanted.clauses)?;
    Ok(text)
}

/// As many bytes of a text as are compared, or the whole of it.
fn front(text: &[u8], count: usize) -> &[u8] {
    match text.get(..count) {
        Some(front) => front,
        None => text,
    }
}

/// Appends what differs between what was said and the refutation that is wanted.
pub(crate) fn push_refutation<R: Files + AllocGlobal + Threads + Sync>(
    rt: &R,
    report: &mut String,
    refutes: Refutes,
    wanted: &Wanted,
    came: &Came,
) -> Result<(), Stop> {
    let Some(steps) = told_steps(came.answer.as_str()) else {
        let answer = came.answer.as_str();
        writeln!(report, "  no refutation is told: {answer}")?;
        return Ok(());
    };
    let beginning = beginning(rt.alloc(), refutes, wanted, steps)?;
    push_text(report, "err", &beginning, front(&came.err, beginning.len()))?;
    let accepted = format!(in rt.alloc(); "refuted {steps}\n")?;
    let said = proved(rt, &came.err)?;
    push_text(report, "proof", accepted.as_bytes(), &said)
}

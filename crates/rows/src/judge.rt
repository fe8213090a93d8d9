//! Whether a row comes as it is wanted, and whether each failing call ends it as a failure has to.
use crate::came::Came;
use crate::play::{Failing, play};
use crate::refutation::push_refutation;
use crate::watched::Counts;
use row_tables::{Book, Object, Row, Stop, Target, push_number, push_text};
use std::rt::Files;
use std::thread::Threads;

/// Plays the row, and answers what differs, a line for each: nothing where it came as it is wanted.
pub(crate) fn judge<R: Files + AllocGlobal + Threads + Sync>(
    rt: &R,
    book: &Book,
    row: &Row,
) -> Result<String, Stop> {
    let mut report = String::new(rt.alloc());
    let came = play(rt, book, row, None)?;
    push_differences(rt, &mut report, row, &came)?;
    let said = wanted_err(row, &came);
    for target in &row.sweeps {
        let calls = calls_on(&came, *target);
        for call in 0..calls {
            let failing = Failing {
                target: *target,
                call,
            };
            let broken = play(rt, book, row, Some(failing))?;
            push_broken(&mut report, row, said, failing, &broken)?;
        }
    }
    Ok(report)
}

/// What has to be said: what the row wants, or the refutation that came where it wants one.
fn wanted_err<'a>(row: &'a Row, came: &'a Came) -> &'a [u8] {
    match row.wanted.refutes {
        Some(_) => &came.err,
        None => &row.wanted.err,
    }
}

/// How many calls an object had, and no more than a sweep tries.
fn calls_on(came: &Came, target: Target) -> u32 {
    match u32::try_from(counts_on(came, target).calls) {
        Ok(calls) => calls,
        Err(_) => u32::MAX,
    }
}

fn counts_on(came: &Came, target: Target) -> Counts {
    match target {
        Target::Shelf => came.shelf,
        Target::Input => came.input,
        Target::Out => came.out_counts,
        Target::Err => came.err_counts,
    }
}

/// Appends what differs in a run of which no call fails but those that the row names.
fn push_differences<R: Files + AllocGlobal + Threads + Sync>(
    rt: &R,
    report: &mut String,
    row: &Row,
    came: &Came,
) -> Result<(), Stop> {
    let wanted = &row.wanted;
    match wanted.status {
        Some(status) => push_number(report, "status", u64::from(status), u64::from(came.status))?,
        None => writeln!(report, "  the row has no line `status`")?,
    }
    let answer = came.answer.as_str();
    if !answer.contains(wanted.answer.as_str()) {
        writeln!(report, "  answer: {answer}")?;
    }
    push_text(report, "out", &wanted.out, &came.out)?;
    match wanted.refutes {
        Some(refutes) => push_refutation(rt, report, refutes, wanted, came)?,
        None => push_text(report, "err", &wanted.err, &came.err)?,
    }
    push_counts(report, Target::Shelf, &row.shelf, came.shelf)?;
    push_counts(report, Target::Input, &row.input, came.input)?;
    push_counts(report, Target::Out, &row.out, came.out_counts)?;
    push_counts(report, Target::Err, &row.err, came.err_counts)
}

/// Appends what differs in the calls of an object.
fn push_counts(
    report: &mut String,
    target: Target,
    object: &Object,
    came: Counts,
) -> Result<(), Stop> {
    let name = target.name();
    match object.calls {
        Some(calls) if calls != came.calls => {
            let came = came.calls;
            writeln!(report, "  {name} has {calls} calls, and {came} came")?;
        }
        _ => {}
    }
    match object.moves {
        Some(moves) if moves != came.moved => {
            let came = came.moved;
            writeln!(report, "  {name} moves {moves} bytes, and {came} moved")?;
        }
        _ => {}
    }
    Ok(())
}

/// Appends a line where a run in which a call failed did not end as it has to: at that call, with the status of the
/// object and a prefix of the output.
fn push_broken(
    report: &mut String,
    row: &Row,
    said: &[u8],
    failing: Failing,
    came: &Came,
) -> Result<(), Stop> {
    let calls = counts_on(came, failing.target).calls;
    if calls == u64::from(failing.call) + 1 && is_broken(row, said, failing.target, came) {
        return Ok(());
    }
    let name = failing.target.name();
    let call = failing.call;
    let status = came.status;
    writeln!(
        report,
        "  call {call} of {name} fails: {calls} calls, status {status}"
    )?;
    push_text(report, "out", &row.wanted.out, &came.out)?;
    push_text(report, "err", said, &came.err)
}

/// Whether a run has ended as one in which a call of the object failed.
fn is_broken(row: &Row, said: &[u8], target: Target, came: &Came) -> bool {
    let wanted = &row.wanted;
    let is_prefix = wanted.out.starts_with(&came.out);
    match target {
        Target::Shelf => came.status == 6 && came.err.starts_with(b"read ") && came.out.is_empty(),
        Target::Input => {
            came.status == 6
                && came.err.as_slice() == b"read input\n".as_slice()
                && is_prefix
                && is_lines(&came.out)
        }
        Target::Out => came.status == 7
            && came.err.as_slice() == b"write out\n".as_slice()
            && is_prefix,
        Target::Err => {
            Some(u32::from(came.status)) == wanted.status
                && came.out.as_slice() == wanted.out.as_slice()
                && said.starts_with(&came.err)
        }
    }
}

/// Whether a text has whole lines alone.
fn is_lines(text: &[u8]) -> bool {
    text.is_empty() || text.ends_with(b"\n")
}

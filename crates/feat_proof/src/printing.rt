//! The text of a log, written.

ghost use Rattle.std.specs.Prelude.{◌≡◌, ◌++◌, ℕ, ℤ, List, length, flat_map, string_bytes, OnOk, IfOk};
ghost use Rattle.spec_refutation.specs.Derivation.{Step};
ghost use Rattle.spec_refutation.specs.Text.{spaced_literals, spaced_numbers, first_line, clause_line, step_line, log_text};
ghost use Rattle.spec_refutation.specs.Reading.{IsLog, Reads};

use crate::clauses::Clause;
use crate::faults::NoMemory;
use crate::formula::Cnf;
use crate::literals::Lit;
use crate::logs::Log;
use crate::steps::Step;
use std::alloc::Global;

/// A space and the literal, for each literal.
fn push_literals(text: &mut String, literals: &[Lit]) -> Result<(), NoMemory>
    ensures { OnOk result (string_bytes text.new
        ≡ string_bytes text.old ++ spaced_literals literals.now) }
{
    for literal in literals {
        let number = literal.number();
        write!(text, " {number}")?;
    }
    Ok(())
}

/// A space and the number, for each number.
fn push_numbers(text: &mut String, numbers: &[u64]) -> Result<(), NoMemory>
    ensures { OnOk result (string_bytes text.new
        ≡ string_bytes text.old ++ spaced_numbers numbers.now) }
{
    for number in numbers {
        write!(text, " {number}")?;
    }
    Ok(())
}

fn push_first_line(text: &mut String, vars: u32, clauses: u64, steps: u64) -> Result<(), NoMemory>
    ensures { OnOk result (string_bytes text.new
        ≡ string_bytes text.old ++ first_line vars clauses steps) }
{
    text.push_str("p")?;
    push_numbers(text, &[u64::from(vars), clauses, steps])?;
    text.push_str("\n")?;
    Ok(())
}

fn push_clause_line(text: &mut String, clause: &Clause) -> Result<(), NoMemory>
    ensures { OnOk result (string_bytes text.new
        ≡ string_bytes text.old ++ clause_line clause.now) }
{
    text.push_str("c")?;
    push_literals(text, clause.literals())?;
    text.push_str("\n")?;
    Ok(())
}

fn push_step_line(text: &mut String, step: &Step) -> Result<(), NoMemory>
    ensures { OnOk result (string_bytes text.new
        ≡ string_bytes text.old ++ step_line step.now) }
{
    text.push_str("s")?;
    push_literals(text, step.literals())?;
    text.push_str(" :")?;
    push_numbers(text, step.hints())?;
    text.push_str("\n")?;
    Ok(())
}

fn push_clause_lines(text: &mut String, clauses: &[Clause]) -> Result<(), NoMemory>
    ensures { OnOk result (string_bytes text.new
        ≡ string_bytes text.old ++ flat_map clause_line clauses.now) }
{
    for clause in clauses {
        push_clause_line(text, clause)?;
    }
    Ok(())
}

fn push_step_lines(text: &mut String, steps: &[Step]) -> Result<(), NoMemory>
    ensures { OnOk result (string_bytes text.new
        ≡ string_bytes text.old ++ flat_map step_line steps.now) }
{
    for step in steps {
        push_step_line(text, step)?;
    }
    Ok(())
}

/// The text of these clauses and this log.
fn printed(alloc: Global, cnf: &Cnf, log: &Log) -> Result<Vec<u8>, NoMemory>
    ensures { IfOk result (λ text. text.items ≡ log_text cnf.now.0 cnf.now.1 log.now) }
{
    let clauses = cnf.clauses();
    let steps = log.steps();
    let mut text = String::new(alloc);
    push_first_line(
        &mut text,
        cnf.vars(),
        clauses.len() as u64,
        steps.len() as u64,
    )?;
    push_clause_lines(&mut text, clauses)?;
    push_step_lines(&mut text, steps)?;
    Ok(text.into_bytes())
}

/// The text of these clauses and this log, which are within the bounds of the format.
pub fn print_log(alloc: Global, cnf: &Cnf, log: &Log) -> Result<Vec<u8>, NoMemory>
    requires { IsLog cnf.now.0 cnf.now.1 log.now }
    ensures text { IfOk result (λ text. text.items ≡ log_text cnf.now.0 cnf.now.1 log.now) }

    // It is read as these clauses and this log, and as no others.
    ensures log { IfOk result (λ text. Reads text.items cnf.now.0 cnf.now.1 log.now) }
    ensures one { IfOk result (λ text. (vars : ℕ) (clauses : List (List ℤ)) (steps : List Step) →
        Reads text.items vars clauses steps
        → (vars ≡ cnf.now.0) × (clauses ≡ cnf.now.1) × (steps ≡ log.now)) }

    // No other text is: what was read is printed back as it was.
    ensures back { IfOk result (λ text. (other : List ℕ) →
        Reads other cnf.now.0 cnf.now.1 log.now → other ≡ text.items) }
{
    printed(alloc, cnf, log)
}

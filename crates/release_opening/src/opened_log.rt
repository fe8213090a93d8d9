//! The log that was opened for a command.

use feat_proof::{Cnf, Log, NoMemory, Verdict, check};
use std::alloc::Global;
use std::marker::Model;

/// Clauses, and the log that is to refute them. Contracts see the clauses and the steps.
#[derive(Drop)]
pub struct OpenedLog {
    cnf: Cnf,
    log: Log,
}

impl Model for OpenedLog {
    ghost use Rattle.std.specs.Prelude.{◌+◌, ◌≤◌, length};
    ghost use Rattle.spec_run.specs.Logs as run;

    ghost Value = { run.Checked };

    ghost view = { λ o. record { clauses = o.cnf.1; steps = o.log } };

    ghost invariant = { λ o. length o.cnf.1 + length o.log ≤ 18446744073709551615 };
}

impl OpenedLog {
    ghost use Rattle.std.specs.Prelude.{◌≡◌, ◌+◌, ◌≤◌, length, IfOk};
    ghost use Rattle.spec_run.specs.Logs.{log_line};
    ghost use Rattle.release_opening.specs.Verdict.{line_by};

    /// Clauses and a log, which are few enough to be numbered together.
    pub(crate) fn new(cnf: Cnf, log: Log) -> OpenedLog
        requires { length cnf.1 + length log ≤ 18446744073709551615 }
        ensures clauses { result.clauses ≡ cnf.1 }
        ensures steps { result.steps ≡ log }
    {
        OpenedLog { cnf, log }
    }

    /// How many steps the log has.
    pub fn steps(&self) -> u64
        ensures { result ≡ length self.now.steps }
    {
        self.log.steps().len() as u64
    }

    /// Whether the log refutes its clauses, or where it fails.
    pub fn check(&self, alloc: Global) -> Result<Verdict, NoMemory>
        ensures { IfOk result (λ verdict. line_by verdict (length self.now.steps) ≡ log_line self.now) }
    {
        check(alloc, &self.cnf, &self.log)
    }
}

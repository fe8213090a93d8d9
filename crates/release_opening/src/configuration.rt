//! A configuration that was opened.
ghost use Rattle.std.specs.Prelude.{◌≡◌, ◌++◌, OnOk};
ghost use Rattle.spec_run.specs.Configuring.{flag_text};

use crate::configuration_lines::{push_atom_lines, push_parameter_lines};
use ast_eval::Config;
use itoa::Buffer;
use mrs_names::Names;
use std::alloc::AllocError;
use std::marker::Model;

/// The configuration in use, with the texts of the names of its parameters. Contracts see the configuration.
#[derive(Drop)]
pub struct OpenedConfiguration {
    names: Names,
    config: Config,
}

impl Model for OpenedConfiguration {
    ghost use Rattle.spec_expressions.specs.Scope.{Configuration};
    ghost use Rattle.mrs_arena.specs.Placed.{text_of};
    ghost use Rattle.ast_eval.specs.Choices.{configuration_of};
    ghost use Rattle.release_opening.specs.Codes.{configuration_code};
    ghost use Rattle.release_opening.specs.Kept.{IsKept};

    ghost Value = { Configuration };

    ghost coded = { configuration_code };

    ghost view = { λ o. configuration_of (text_of o.names) o.config };

    ghost invariant = { λ o. IsKept o.names o.config };
}

impl OpenedConfiguration {
    ghost use Rattle.std.specs.Prelude.{◌≡◌, ◌++◌, OnOk};
    ghost use Rattle.spec_run.specs.Configuring.{configuration_lines};
    ghost use Rattle.mrs_arena.specs.Placed.{text_of};
    ghost use Rattle.ast_eval.specs.Choices.{configuration_of};
    ghost use Rattle.release_opening.specs.Kept.{IsKept};

    /// A configuration of parameters whose names are held.
    pub(crate) fn new(names: Names, config: Config) -> OpenedConfiguration
        requires { IsKept names config }
        ensures { result ≡ configuration_of (text_of names) config }
    {
        OpenedConfiguration { names, config }
    }

    /// Appends the lines of the parameters and of the atoms. Where memory runs out, a part of them may be there.
    pub fn push_lines(&self, out: &mut Vec<u8>) -> Result<(), AllocError>
        ensures { OnOk result (out.new.items ≡ out.old.items ++ configuration_lines self.now) }
    {
        push_parameter_lines(out, &self.names, &self.config)?;
        push_atom_lines(out, &self.config)
    }
}

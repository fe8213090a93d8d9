//! A set is made ready for the search for its leaves.
ghost use Rattle.std.specs.Prelude.{◌≡◌, ◌<◌, All, length, IfOk};
ghost use Rattle.mrs_arena.specs.Placed.{AreHeld, text_of, paths_of};
ghost use Rattle.mrs_arena.specs.AliasPaths.{aliases_by};
ghost use Rattle.ast_eval.specs.Choices.{configuration_of};

use crate::opened::Opened;
use ast_eval::Config;
use insn_decode::Decider;
use insn_tree::{NoMemory, Tree};
use mrs_arena::Arena;
use mrs_names::Names;
use std::alloc::Global;

/// The arena of a set with a configuration, made ready for the search for its leaves.
pub(crate) fn search_through(
    alloc: Global,
    arena: Arena,
    names: Names,
    config: Config,
) -> Result<Opened, NoMemory>
    requires nodes { AreHeld names arena.nodes }
    requires parameters { All (λ name. name < length names) config.names }
    ensures { IfOk result (λ opened. opened ≡ record { paths = paths_of names arena.nodes; aliases = aliases_by names arena.nodes; configuration = configuration_of (text_of names) config }) }
{
    let Ok(tree) = Tree::new(alloc, arena, &names) else {
        return Err(NoMemory);
    };
    let Ok(decider) = Decider::new(alloc, &tree) else {
        return Err(NoMemory);
    };
    Ok(Opened::new(names, tree, decider, config))
}

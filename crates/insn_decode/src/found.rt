//! What a word is found at, in short.

use ast_eval::Truth;
use insn_tree::LeafId;

/// The leaves at which a word is found: none, one with its verdict, or several. A verdict is `Yes` or `Open`.
#[derive(Clone, Copy, PartialEq, Eq, Debug)]
pub enum Found {
    Nothing,
    Lone(LeafId, Truth),
    Several,
}

impl Found {
    ghost use Rattle.std.specs.Prelude.{List, [], ◌++◌};
    ghost use Rattle.spec_decode.specs.Found.{Candidate, with_leaf};
    ghost use Rattle.ast_eval.specs.Views.{truth_of};
    ghost use Rattle.insn_decode.specs.Judged.{IsFound};

    /// The same with one more leaf, which is found where its verdict is not `No`.
    pub(crate) fn with(self, leaf: LeafId, verdict: Truth) -> Found
        ensures { (before : List Candidate) → IsFound self before → IsFound result (before ++ with_leaf leaf.0 (truth_of verdict) []) }
    {
        match verdict {
            Truth::No => self,
            Truth::Yes | Truth::Open => match self {
                Found::Nothing => Found::Lone(leaf, verdict),
                Found::Lone(_, _) | Found::Several => Found::Several,
            },
        }
    }
}

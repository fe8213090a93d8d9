//! The word that what is given is encoded to.

ghost use Rattle.std.specs.Prelude.{◌≡◌, List, map, unwrap_or};
ghost use Rattle.spec_encoding.specs.Encoding.{encoding};
ghost use Rattle.spec_lines.specs.Given as spec;
ghost use Rattle.spec_instructions.specs.Fields as visible;
ghost use Rattle.insn_tree.specs.declared.field_range.FieldRange.{FieldRange};
ghost use Rattle.insn_tree.specs.Trees.{field_of};
ghost use Rattle.list_words.specs.Listers.{IsOneRelease, machine};
ghost use Rattle.list_words.specs.Givens.{IsGiven};
ghost use Rattle.list_words.specs.Encoded.{Encodes, or_next};
ghost use Rattle.list_words.specs.Ways.{way_by, IsWayOf, path_along};

use crate::given::Given;
use crate::lister::Lister;
use insn_encode::EncodeFault;
use insn_tree::PathId;

/// The first pair with an unknown name, where those before pair number `next`, whose name is unknown, have this answer.
fn first_unknown(answer: Result<u32, EncodeFault>, next: u32) -> EncodeFault
    ensures { result ≡ or_next answer next }
{
    match answer {
        Err(EncodeFault::UnknownField { i }) => EncodeFault::UnknownField { i },
        _ => EncodeFault::UnknownField { i: next },
    }
}

/// The word that what is given for a leaf or an alias is encoded to.
pub(crate) fn encode_given(l: &Lister<'_>, path: PathId, given: &Given) -> Result<u32, EncodeFault>
    requires release { IsOneRelease l.now }
    requires way { IsWayOf l.now.tree.now (way_by path) }
    ensures { (fields : List FieldRange) (told : spec.Given) → map (field_of l.now.names.now) fields ≡ visible.fields (path_along l.now.names.now l.now.tree.now (way_by path)) → IsGiven l.now.names.now fields given.now told
        → Encodes l.now.names.now l.now.tree.now (way_by path) result (encoding (path_along l.now.names.now l.now.tree.now (way_by path)) (machine l.now).configuration told.pairs (unwrap_or told.rest 0)) }
{
    let rest = given.rest.unwrap_or(0);
    let answer = l.encode(path, given.pairs.as_slice(), rest);
    if given.pairs.len() == given.count {
        return answer;
    }
    Err(first_unknown(answer, given.pairs.len() as u32))
}

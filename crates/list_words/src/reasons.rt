//! The reason why a line is refused, as it is printed.

ghost use Rattle.std.specs.Prelude.{◌≡◌, ◌++◌, ℕ, List, codes, decimal, OnOk};
ghost use Rattle.spec_lines.specs.LineFault as spec;
ghost use Rattle.spec_lines.specs.Reasons.{reason};
ghost use Rattle.mrs_arena.specs.Placed.{text_of};
ghost use Rattle.insn_tree.specs.Trees.{TreeParts};
ghost use Rattle.ast_eval.specs.Choices.{Choices};
ghost use Rattle.list_words.specs.Machines.{machine_of};
ghost use Rattle.list_words.specs.Faults.{IsFault};
ghost use Rattle.list_words.specs.Told.{node_name, refusal_told, reason_told};

use crate::decimal::push_decimal;
use crate::line_fault::{LineFault, LineWhy};
use insn_encode::EncodeFault;
use mrs_arena::{Arena, NodeId};
use mrs_names::{NameId, Names};
use std::alloc::AllocError;

/// Appends the reason why a line is refused. The names and the arena are those of the lister that the line was read by.
pub fn push_reason(
    out: &mut Vec<u8>,
    names: &Names,
    arena: &Arena,
    fault: &LineFault,
) -> Result<(), AllocError>
    ensures { (tree : TreeParts) (config : Choices) (told : spec.LineFault) → tree.nodes ≡ arena.now.nodes → IsFault names.now tree fault.now told
        → OnOk result (out.new.items ≡ out.old.items ++ reason (machine_of names.now tree config) told.why) }
{
    push_why(out, names, arena, fault.why)
}

fn push_why(out: &mut Vec<u8>, names: &Names, arena: &Arena, why: LineWhy) -> Result<(), AllocError>
    ensures { OnOk result (out.new.items ≡ out.old.items ++ reason_told names.now arena.now.nodes why) }
{
    match why {
        LineWhy::Long => out.extend_from_slice(b"long"),
        LineWhy::Head => out.extend_from_slice(b"head"),
        LineWhy::Label => out.extend_from_slice(b"label"),
        LineWhy::Pair => out.extend_from_slice(b"pair"),
        LineWhy::Many => out.extend_from_slice(b"many"),
        LineWhy::Encode(refusal) => push_refusal(out, names, arena, refusal),
    }
}

fn push_refusal(
    out: &mut Vec<u8>,
    names: &Names,
    arena: &Arena,
    refusal: EncodeFault,
) -> Result<(), AllocError>
    ensures { OnOk result (out.new.items ≡ out.old.items ++ refusal_told names.now arena.now.nodes refusal) }
{
    match refusal {
        EncodeFault::UnknownField { i } => push_number(out, "unknown ", i),
        EncodeFault::DoubledField { i } => push_number(out, "doubled ", i),
        EncodeFault::MissingField { name } => push_text(out, "missing ", text_of(names, name)),
        EncodeFault::TooWide { i } => push_number(out, "wide ", i),
        EncodeFault::Clash { bit } => push_number(out, "clash ", u32::from(bit)),
        EncodeFault::FixedBit { bit } => push_number(out, "fixed ", u32::from(bit)),
        EncodeFault::RestBit { bit } => push_number(out, "restbit ", u32::from(bit)),
        EncodeFault::Excluded { node } => {
            push_text(out, "excluded ", node_name(names, arena, node))
        }
    }
}

fn push_number(out: &mut Vec<u8>, word: &str, number: u32) -> Result<(), AllocError>
    ensures { OnOk result (out.new.items ≡ out.old.items ++ (word.now ++ decimal number)) }
{
    out.extend_from_slice(word.as_bytes())?;
    push_decimal(out, number)
}

fn push_text(out: &mut Vec<u8>, word: &str, text: &str) -> Result<(), AllocError>
    ensures { OnOk result (out.new.items ≡ out.old.items ++ (word.now ++ text.now)) }
{
    out.extend_from_slice(word.as_bytes())?;
    out.extend_from_slice(text.as_bytes())?;
    Ok(())
}

/// The text of a name's number, which is empty where no name has it.
fn text_of(names: &Names, id: NameId) -> &str
    ensures { result.now ≡ text_of names.now id.0 }
{
    if (id.0 as usize) < names.len() {
        names.text(id)
    } else {
        ""
    }
}

/// The name of a node, which is empty where there is no such node.
fn node_name<'a>(names: &'a Names, arena: &Arena, node: NodeId) -> &'a str
    ensures { result.now ≡ node_name names.now arena.now.nodes node.0 }
{
    if node.0 < arena.node_count() {
        text_of(names, arena.node(node).name())
    } else {
        ""
    }
}

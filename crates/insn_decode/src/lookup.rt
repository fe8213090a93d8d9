//! The walk down the decision tree.

ghost use Rattle.std.specs.Prelude.{◌≡◌, ◌<◌, ◌≤◌, ◌+◌, ℕ, List, length, map, if◌then◌else◌, ◌==◌};
ghost use Rattle.spec_bits.specs.Bits.{bit_of};
ghost use Rattle.spec_decode.specs.Bucket.{Encoding};
ghost use Rattle.insn_decode.specs.Members.{encoding_of};
ghost use Rattle.insn_decode.specs.Decides.{Decides, IsRun};

use crate::bits::bit;
use crate::member::Member;
use crate::node::{Node, node_at};
use std::sync::ledger::Ledger;
use step_count::Steps;

/// A run of the order: from place `from` up to place `to`.
#[derive(Clone, Copy)]
pub(crate) struct Run {
    pub from: usize,
    pub to: usize,
}

/// The node that follows a test of bit `i`.
fn followed(w: u32, i: u8, zero: u32, one: u32) -> u32
    requires { i < 32 }
    ensures { result ≡ (if bit_of w i == 0 then zero else one) }
{
    if bit(w, i) == 0 { zero } else { one }
}

/// The run of the order that is the bucket of a word, from node `root` down. A step is a test of a bit.
pub(crate) fn find_run<L: Ledger>(
    nodes: &[Node],
    order: &[Member],
    root: u32,
    w: u32,
    steps: &mut Steps<L>,
) -> Run
    requires { (es : List Encoding) × Decides nodes.now (map encoding_of order.now) root es }
    ensures within { (result.from ≤ result.to) × (result.to ≤ length order.now) }
    ensures bucket { (es : List Encoding) → Decides nodes.now (map encoding_of order.now) root es → IsRun (map encoding_of order.now) w result.from result.to es }
    ensures cost { steps.new ≤ steps.old + 32 }
{
    let mut k = root;
    'down: loop {
        match node_at(nodes, k) {
            Node::Leaves { from, to } => {
                return Run {
                    from: from as usize,
                    to: to as usize,
                };
            }
            Node::Test { bit, zero, one } => {
                steps.tick();
                k = followed(w, bit, zero, one);
            }
        }
    }
}

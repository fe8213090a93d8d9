//! The decision tree of a tree of instructions.

use crate::candidates::Candidates;
use crate::found::Found;
use crate::gathering::gather;
use crate::growing::grow;
use crate::judging::found_among;
use crate::lookup::find_run;
use crate::member::{Member, leaves_of};
use crate::node::Node;
use ast_eval::Config;
use insn_tree::{LeafId, NoMemory, Tree};
use std::alloc::Global;
use std::marker::{Brand, Model};
use std::sync::ledger::{Blank, Ledger};
use step_count::Steps;

/// The decision tree of a tree of instructions: tests of bits, down to buckets of leaves. It never changes, and no call but `new` takes memory.
///
/// The leaves of a bucket stand beside each other, with the bits that they fix. A clause sees the nodes, and the leaves in the order of their buckets.
#[derive(Drop)]
pub struct Decider {
    nodes: Vec<Node>,
    order: Vec<Member>,
    leaves: Vec<LeafId>,
    root: u32,
}

impl Model for Decider {
    ghost use Rattle.std.specs.Prelude.{map};
    ghost use Rattle.insn_decode.specs.Members.{encoding_of};
    ghost use Rattle.insn_decode.specs.Deciders.{DeciderParts};
    ghost use Rattle.insn_decode.specs.Formed.{AreFormed};

    ghost Value = { DeciderParts };

    ghost view = { λ d. record { nodes = d.nodes.items; order = map encoding_of d.order.items; root = d.root } };

    ghost invariant = { λ d. AreFormed d.nodes.items d.order.items d.leaves.items d.root };
}

impl Decider {
    ghost use Rattle.std.specs.Prelude.{◌≡◌, ◌<◌, ◌≤◌, ◌+◌, ℕ, List, IfOk, length, map};
    ghost use Rattle.spec_decode.specs.Bucket.{Encoding, Bucket, encodings};
    ghost use Rattle.spec_decode.specs.Found.{found};
    ghost use Rattle.spec_walk.specs.Limits.{node_limit};
    ghost use Rattle.mrs_arena.specs.Placed.{text_of};
    ghost use Rattle.ast_eval.specs.Choices.{configuration_of};
    ghost use Rattle.insn_tree.specs.Trees.{tree_paths};
    ghost use Rattle.insn_tree.specs.Verdicts.{AreHeldBy};
    ghost use Rattle.insn_decode.specs.Judged.{IsFound};
    ghost use Rattle.insn_decode.specs.Left.{candidate_of};
    ghost use Rattle.insn_decode.specs.Members.{encoding_of};
    ghost use Rattle.insn_decode.specs.Deciders.{Tells, IsDeciderOf, AreOfBucket};

    /// The decision tree over the leaves of a tree.
    pub fn new(alloc: Global, tree: &Tree) -> Result<Decider, NoMemory>
        ensures { IfOk result (IsDeciderOf tree.now) }
    {
        let members = gather(alloc, tree)?;
        Decider::over(alloc, &members)
    }

    /// The decision tree over these leaves.
    pub(crate) fn over(alloc: Global, members: &[Member]) -> Result<Decider, NoMemory>
        requires { length members.now ≤ node_limit }
        ensures { IfOk result (λ d. Tells d (map encoding_of members.now)) }
    {
        let mut nodes = Vec::new(alloc);
        let mut order = Vec::with_capacity(alloc, members.len())?;
        let root = grow(alloc, &mut nodes, &mut order, members)?;
        let leaves = leaves_of(alloc, &order)?;
        Ok(Decider {
            nodes,
            order,
            leaves,
            root,
        })
    }

    /// The leaves in the bucket of the word `w`, in order: all at which it can be found. A step is a test of a bit.
    pub fn bucket<L: Ledger>(&self, w: u32, steps: &mut Steps<L>) -> &[LeafId]
        ensures bucket { (es : List Encoding) → Tells self.now es → AreOfBucket w es (map (λ l. l.0) result.now) }
        ensures cost { steps.new ≤ steps.old + 32 }
    {
        let run = find_run(&self.nodes, &self.order, self.root, w, steps);
        &self.leaves[run.from..run.to]
    }

    /// Which leaves the word `w` is found at. A step is a test of a bit, or a look at the conditions of a leaf in the word's bucket.
    ///
    /// The decider was made from that tree.
    pub fn decide<L: Ledger>(
        &self,
        tree: &Tree,
        w: u32,
        config: &Config,
        steps: &mut Steps<L>,
    ) -> Found
        requires { IsDeciderOf tree.now self.now }
        ensures found { (names : List (List ℕ)) → AreHeldBy names tree.now.nodes config.now → IsFound result (found (tree_paths names tree.now) (configuration_of (text_of names) config.now) w) }
        ensures cost { (names : List (List ℕ)) (bucket : List Encoding) → Bucket w bucket (encodings (tree_paths names tree.now)) → steps.new ≤ steps.old + (32 + length bucket) }
    {
        let members = self.members(w, steps);
        found_among(tree, config, members, w, steps)
    }

    /// All leaves at which the word `w` is found, each with its verdict, in order. No steps are counted.
    ///
    /// The decider was made from that tree.
    pub fn candidates<'a>(&'a self, tree: &'a Tree, w: u32, config: &'a Config) -> Candidates<'a>
        requires { IsDeciderOf tree.now self.now }
        ensures { (names : List (List ℕ)) → AreHeldBy names tree.now.nodes config.now → map candidate_of result ≡ found (tree_paths names tree.now) (configuration_of (text_of names) config.now) w }
    {
        Candidates::new(tree, config, self.members_uncounted(w), w)
    }

    /// The leaves in the bucket of the word, with what they fix.
    fn members<L: Ledger>(&self, w: u32, steps: &mut Steps<L>) -> &[Member]
        ensures bucket { (es : List Encoding) → Tells self.now es → Bucket w (map encoding_of result.now) es }
        ensures cost { steps.new ≤ steps.old + 32 }
    {
        let run = find_run(&self.nodes, &self.order, self.root, w, steps);
        &self.order[run.from..run.to]
    }

    /// The same, with steps that are counted for nobody.
    fn members_from<L: Ledger>(&self, w: u32, blank: Blank) -> &[Member]
        requires name { blank.name ≡ L.name }
        requires parts { blank.parts ≡ L.parts }
        requires some { 0 < L.parts }
        ensures { (es : List Encoding) → Tells self.now es → Bucket w (map encoding_of result.now) es }
    {
        self.members(w, &mut Steps::<L>::new(blank))
    }

    /// The same. No steps are counted.
    fn members_uncounted(&self, w: u32) -> &[Member]
        ensures { (es : List Encoding) → Tells self.now es → Bucket w (map encoding_of result.now) es }
    {
        self.members_from::<Brand>(w, Blank::new(1))
    }
}

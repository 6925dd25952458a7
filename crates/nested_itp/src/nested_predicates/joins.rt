//! Predicates without truth values in them.

ghost use Rattle.std.specs.Prelude.{◌≡◌, ◌≤◌, IfOk, OnOk, length};
ghost use Rattle.triple_rows.specs.Predicates.{prefix_of, formula_of};

use std::alloc::{AllocError, Global};
use triple_rows::PredNode;

/// A tree that is simplified: a truth value, or nodes with so many nodes behind them.
#[derive(Clone, Copy)]
pub(crate) enum Part {
    Truth(bool),
    Nodes(usize),
}

/// Trees that are simplified, read from the last one.
#[derive(Drop)]
pub(crate) struct Simplifier {
    /// The nodes of the trees that are no truth values, last first.
    pub(crate) nodes: Vec<PredNode>,
    /// The trees, the first one last.
    pub(crate) parts: Vec<Part>,
}

ghost use Rattle.nested_itp.specs.NestedPredicates.Joins.{simplified};
ghost use Rattle.nested_itp.specs.NestedPredicates.Simplifying.{SpellsJoined, is_same, decided, join_node};

/// The nodes of a predicate without truth values in it, or of one alone, where each `And` and `Or` had two parts.
pub(crate) fn without_truth(
    alloc: Global,
    nodes: Vec<PredNode>,
) -> Result<Vec<PredNode>, AllocError>
    requires { SpellsJoined nodes.items }
    ensures { IfOk result (λ v. v.items ≡ prefix_of (simplified (formula_of nodes.items))) }
{
    let mut left = nodes;
    let mut simplifier = Simplifier {
        nodes: Vec::new(alloc),
        parts: Vec::new(alloc),
    };
    while let Some(node) = left.pop() {
        simplifier.read(node)?;
    }
    simplifier.tree()
}

impl Simplifier {
    ghost use Rattle.std.specs.Prelude.{◌∷◌, [], ◌||◌, ◌&&◌, reverse, take, if◌then◌else◌};
    ghost use Rattle.triple_rows.specs.Predicates.{Formula, prefix_of};
    ghost use Rattle.nested_itp.specs.NestedPredicates.Simplifying.{Spell, FindsParts, Reads, JoinsTwo, JoinsParts, IsTree};

    /// Reads the node in front of the trees.
    fn read(&mut self, node: PredNode) -> Result<(), AllocError>
        requires { FindsParts node self.old }
        ensures { OnOk result (Reads node self.old self.new) }
    {
        match node {
            PredNode::Truth(value) => {
                self.parts.push(Part::Truth(value))?;
                Ok(())
            }
            PredNode::Atom(row) => {
                self.parts.push(Part::Nodes(self.nodes.len()))?;
                self.nodes.push(PredNode::Atom(row))?;
                Ok(())
            }
            PredNode::And(_) => self.join(false),
            PredNode::Or(_) => self.join(true),
        }
    }

    /// Joins the two trees in front.
    fn join(&mut self, by_or: bool) -> Result<(), AllocError>
        requires { 2 ≤ length self.old.parts.items }
        ensures { OnOk result (JoinsTwo by_or self.old self.new) }
    {
        let Some(first) = self.parts.pop() else {
            unreachable!()
        };
        let Some(second) = self.parts.pop() else {
            unreachable!()
        };
        let part = self.joined(by_or, first, second)?;
        self.parts.push(part)?;
        Ok(())
    }

    /// The part of two parts joined.
    fn joined(&mut self, by_or: bool, first: Part, second: Part) -> Result<Part, AllocError>
        ensures { IfOk result (λ part. JoinsParts by_or first second part self.old self.new) }
    {
        match first {
            Part::Truth(value) => Ok(self.after_truth(by_or, value, second)),
            Part::Nodes(from) => self.after_nodes(by_or, from, second),
        }
    }

    /// The part of a truth value and another part joined.
    fn after_truth(&mut self, by_or: bool, value: bool, second: Part) -> Part
        ensures { JoinsParts by_or (Part.Truth value) second result self.old self.new }
    {
        match second {
            Part::Truth(other) => Part::Truth(decided(by_or, value, other)),
            Part::Nodes(from) => self.beside(by_or, value, from),
        }
    }

    /// The part of nodes and another part joined.
    fn after_nodes(&mut self, by_or: bool, from: usize, second: Part) -> Result<Part, AllocError>
        ensures { IfOk result (λ part. JoinsParts by_or (Part.Nodes from) second part self.old self.new) }
    {
        match second {
            Part::Truth(value) => Ok(self.beside(by_or, value, from)),
            Part::Nodes(other) => {
                self.nodes.push(join_node(by_or))?;
                Ok(Part::Nodes(other))
            }
        }
    }

    /// The part of nodes beside a truth value, which may decide.
    fn beside(&mut self, by_or: bool, value: bool, from: usize) -> Part
        ensures parts { self.new.parts.items ≡ self.old.parts.items }
        ensures part { result ≡ (if is_same by_or value then Part.Truth value else Part.Nodes from) }
        ensures nodes { self.new.nodes.items ≡ (if is_same by_or value then take from self.old.nodes.items else self.old.nodes.items) }
    {
        if by_or == value {
            self.nodes.truncate(from);
            Part::Truth(value)
        } else {
            Part::Nodes(from)
        }
    }

    /// The nodes of the one tree that is left.
    fn tree(self) -> Result<Vec<PredNode>, AllocError>
        requires { IsTree self }
        ensures { IfOk result (λ v. (f : Formula) → Spell (reverse self.nodes.items) (reverse self.parts.items) (f ∷ []) → v.items ≡ prefix_of f) }
    {
        let Simplifier {
            mut nodes,
            mut parts,
        } = self;
        if let Some(Part::Truth(value)) = parts.pop() {
            nodes.push(PredNode::Truth(value))?;
        }
        nodes.as_mut_slice().reverse();
        Ok(nodes)
    }
}

/// Both truth values joined.
fn decided(by_or: bool, a: bool, b: bool) -> bool
    ensures { result ≡ decided by_or a b }
{
    if by_or { a || b } else { a && b }
}

/// The node that joins two trees.
fn join_node(by_or: bool) -> PredNode
    ensures { result ≡ join_node by_or }
{
    if by_or {
        PredNode::Or(2)
    } else {
        PredNode::And(2)
    }
}

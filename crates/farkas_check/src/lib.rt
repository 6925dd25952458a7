//! Refutations of systems over whole numbers: trees of cuts and cases with a contradicting combination of rows at each leaf,
//! kept as prefix lists. The check of one takes no recursion, so no depth of a tree exhausts the stack.
#![tactic(auto)]

mod checking;
mod leaves;
mod refutations;
mod sums;
mod walk;

ghost use Rattle.std.specs.Prelude.{◌↔◌, List};
ghost use Rattle.lin_rows.specs.declared.systems.System.{System};
ghost use Rattle.lin_rows.specs.Systems.{SaysSame};
ghost use Rattle.farkas_check.specs.Nodes.{PlainNode};
ghost use Rattle.farkas_check.specs.Refutes.{goal_of, Refutes};
ghost use Rattle.farkas_check.specs.Trees.{Tree, prefix_of, TreeRefutes};

pub use checking::check;
pub use refutations::{Node, Refutation, tree};
pub use walk::Walk;

/// A prefix list refutes a system exactly where its tree does, by cases on the tree.
pub fn prefix_list_refutes_as_tree()
    ensures { (t : Tree) (system : System) → Refutes (prefix_of t) system ↔ TreeRefutes t (goal_of system) }
{}

/// Systems that say the same have the same refutations: equal rows, and groups whose members say the same in order.
pub fn alike_systems_are_refuted_alike()
    ensures { (nodes : List PlainNode) (a b : System) → SaysSame a b → Refutes nodes a ↔ Refutes nodes b }
{}

//! Laws of the refutations of triples, over the definitions that contracts cite.

ghost use Rattle.std.specs.Prelude.{List, length};
ghost use Rattle.std.specs.List.{AllByRecursion};
ghost use Rattle.farkas_check.specs.Trees.{Tree, prefix_of};
ghost use Rattle.nwa_base.specs.declared.letters.Letter.{Letter};
ghost use Rattle.nwa_base.specs.Automata.{IsAutomaton};
ghost use Rattle.nwa_base.specs.Acceptance.{Accepts};
ghost use Rattle.letter_acts.specs.Invariant.{Graph, IsGraph};
ghost use Rattle.path_rows.specs.Paths.{path_of};
ghost use Rattle.nested_itp.specs.NestedPredicates.Stamps.{stamps_of};
ghost use Rattle.nested_itp.specs.NestedPredicates.Interpolants.{RefutesRows};
ghost use Rattle.nested_itp.specs.NestedRefutations.Numbers.{steps_of, AreCutsAt};
ghost use Rattle.nested_itp.specs.NestedRefutations.Refuting.{StepRefutes};
ghost use Rattle.nested_itp.specs.NestedRefutations.Walked.{WalkedRefutes};
ghost use Rattle.nested_itp.specs.NestedRefutations.Cuts.{WalkedCuts};
ghost use Rattle.nested_itp.specs.NestedRefutations.Waiting.{StepWaits};

/// Under a tree that refutes the rows of an accepted word, the leaves of the refutation of each letter's triple contradict the
/// rows that hold there, if their numbers fit.
pub fn refutations_refute()
    ensures { (g : Graph) (w : List Letter) (t : Tree) → IsGraph g → IsAutomaton g.automaton → Accepts g.automaton w → RefutesRows (prefix_of t) (path_of g w).rows →
        AreCutsAt (length (stamps_of g w).columns) t → AllByRecursion (StepRefutes g w t) (steps_of g w t) }
{}

/// Under such a tree, what is put down along it for a letter's triple, as the refutation of the triple goes, refutes the triple's
/// system, if the numbers of both fit.
pub fn walked_trees_refute()
    ensures { (g : Graph) (w : List Letter) (t : Tree) → IsGraph g → IsAutomaton g.automaton → Accepts g.automaton w → RefutesRows (prefix_of t) (path_of g w).rows →
        AreCutsAt (length (stamps_of g w).columns) t → AllByRecursion (WalkedRefutes g w t) (steps_of g w t) }
{}

/// What is put down for a letter's triple cuts at columns of the triple's system alone.
pub fn walked_trees_cut_within()
    ensures { (g : Graph) (w : List Letter) (t : Tree) → IsGraph g → IsAutomaton g.automaton → Accepts g.automaton w →
        AreCutsAt (length (stamps_of g w).columns) t → AllByRecursion (WalkedCuts g w t) (steps_of g w t) }
{}

/// Under a tree that refutes the rows of an accepted word, a group waits wherever the refutation of a letter's triple stops at one
/// of which no member was taken.
pub fn stops_have_groups()
    ensures { (g : Graph) (w : List Letter) (t : Tree) → IsGraph g → IsAutomaton g.automaton → Accepts g.automaton w → RefutesRows (prefix_of t) (path_of g w).rows →
        AllByRecursion (StepWaits g w t) (steps_of g w t) }
{}

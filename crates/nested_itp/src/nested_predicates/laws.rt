//! Laws of prefix predicates, over the definitions that contracts cite.

ghost use Rattle.std.specs.Prelude.{◌≤◌, ◌≢◌, ℕ, List, [], length};
ghost use Rattle.nwa_base.specs.declared.letters.Letter.{Letter};
ghost use Rattle.letter_acts.specs.Invariant.{Graph};
ghost use Rattle.path_rows.specs.Paths.{path_of};
ghost use Rattle.farkas_check.specs.Trees.{Tree, prefix_of, cuts_on_branch};
ghost use Rattle.triple_rows.specs.Predicates.{IsPredicate, IsOver};
ghost use Rattle.nested_itp.specs.NestedPredicates.Positions.{Position};
ghost use Rattle.nested_itp.specs.NestedPredicates.Joins.{predicate_at};
ghost use Rattle.nested_itp.specs.NestedPredicates.Interpolants.{RefutesRows, prefix_predicates, BeginsTrue, EndsFalse};

/// A prefix predicate is a predicate where no branch of the refutation has more than 200 cuts.
pub fn prefix_predicates_are_predicates()
    ensures { (g : Graph) (w : List Letter) (t : Tree) (q : Position) → cuts_on_branch t ≤ 200 → IsPredicate (predicate_at g w t q) }
{}

/// Its atoms name columns of the frame at its position alone.
pub fn prefix_predicates_are_over_frames()
    ensures { (g : Graph) (w : List Letter) (t : Tree) (q : Position) → IsOver (length q.here) (predicate_at g w t q) }
{}

/// The predicate of the first position is true.
pub fn first_predicate_is_true()
    ensures { (g : Graph) (w : List Letter) (t : Tree) → RefutesRows (prefix_of t) (path_of g w).rows → BeginsTrue (prefix_predicates g w t) }
{}

/// The predicate of the last position is false, if there is a letter.
pub fn last_predicate_is_false()
    ensures { (g : Graph) (w : List Letter) (t : Tree) → w ≢ [] → RefutesRows (prefix_of t) (path_of g w).rows → EndsFalse (prefix_predicates g w t) }
{}

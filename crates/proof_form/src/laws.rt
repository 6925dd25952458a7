//! What the definitions of the grammar say above the reader and the writer.

ghost use Rattle.std.specs.Prelude.{◌≡◌, ◌+◌, ◌<◌, ◌^◌, ◌↔◌, ℕ, List, IsTrue, length};
ghost use Rattle.proof_form.specs.declared.numerals.Numeral.{Numeral};
ghost use Rattle.proof_form.specs.declared.lines.StepLine.{StepLine};
ghost use Rattle.std.specs.Prelude.{◌<ℤ◌};
ghost use Rattle.proof_form.specs.Numerals.{is_numeral, numeral_text, numeral_is_below};
ghost use Rattle.proof_form.specs.NumberValues.{value};
ghost use Rattle.proof_form.specs.Forests.{Tree, HasParts, prefix_of, text_of};
ghost use Rattle.proof_form.specs.Trees.{is_tree, tree_text};
ghost use Rattle.proof_form.specs.Predicates.{PredicateNode, is_predicate, predicate_text};
ghost use Rattle.proof_form.specs.Refutations.{RefutationNode, is_refutation, refutation_text};
ghost use Rattle.proof_form.specs.Lines.{Pred, Triple, Node, is_pred, is_triple, is_node, is_step, pred_text, triple_text, node_text, step_text};
ghost use Rattle.proof_form.specs.Annotations.{Content, is_annotation, AreShort, safe_text};
ghost use Rattle.proof_form.specs.Standing.{FirstWrongOfText};
ghost use Rattle.proof_form.specs.Beginnings.{StandOnly};

/// Numerals, predicates and refutations have one spelling each.
pub fn values_have_one_spelling()
    ensures numerals { (a b : Numeral) → IsTrue (is_numeral a) → IsTrue (is_numeral b) → numeral_text a ≡ numeral_text b → a ≡ b }
    ensures predicates { (a b : List PredicateNode) → IsTrue (is_predicate a) → IsTrue (is_predicate b) → predicate_text a ≡ predicate_text b → a ≡ b }
    ensures refutations { (a b : List RefutationNode) → IsTrue (is_refutation a) → IsTrue (is_refutation b) → refutation_text a ≡ refutation_text b → a ≡ b }
{}

/// Lines have one value each.
pub fn lines_have_one_value()
    ensures preds { (n : ℕ) (a b : Pred) → IsTrue (is_pred a) → IsTrue (is_pred b) → pred_text n a ≡ pred_text n b → a ≡ b }
    ensures triples { (a b : Triple) → IsTrue (is_triple a) → IsTrue (is_triple b) → triple_text a ≡ triple_text b → a ≡ b }
    ensures nodes { (n : ℕ) (a b : Node) → IsTrue (is_node a) → IsTrue (is_node b) → node_text n a ≡ node_text n b → a ≡ b }
    ensures steps { (a b : StepLine) → IsTrue (is_step a) → IsTrue (is_step b) → step_text a ≡ step_text b → a ≡ b }
{}

/// A text that fits in memory is the text of one annotation at most.
pub fn texts_have_one_annotation()
    ensures { (m n : ℕ) (c d : List ℕ) (a b : Content) → m < 2 ^ 64 → n < 2 ^ 64 → AreShort c → AreShort d → IsTrue (is_annotation a) → IsTrue (is_annotation b) →
        length (safe_text m c a) < 2 ^ 64 → safe_text m c a ≡ safe_text n d b → (m ≡ n) × (c ≡ d) × (a ≡ b) }
{}

/// The prefix list of a tree is one whole tree with the tree's text, whatever nodes say and however many parts they have; and
/// each list that is one whole tree is the prefix list of a tree.
pub fn prefix_lists_are_trees()
    ensures spelled { (head : RefutationNode → List ℕ) (parts : RefutationNode → ℕ) (t : Tree RefutationNode) → HasParts parts t →
        IsTrue (is_tree parts (prefix_of t)) × (tree_text head parts (prefix_of t) ≡ text_of head t) }
    ensures predicates { (head : PredicateNode → List ℕ) (parts : PredicateNode → ℕ) (t : Tree PredicateNode) → HasParts parts t →
        IsTrue (is_tree parts (prefix_of t)) × (tree_text head parts (prefix_of t) ≡ text_of head t) }
    ensures refutation_trees { (parts : RefutationNode → ℕ) (ns : List RefutationNode) → IsTrue (is_tree parts ns) →
        (t : Tree RefutationNode) × HasParts parts t × (prefix_of t ≡ ns) }
    ensures predicate_trees { (parts : PredicateNode → ℕ) (ns : List PredicateNode) → IsTrue (is_tree parts ns) →
        (t : Tree PredicateNode) × HasParts parts t × (prefix_of t ≡ ns) }
{}

/// Numerals of the grammar are compared by their numbers.
pub fn numerals_are_compared_by_value()
    ensures { (a b : Numeral) → IsTrue (is_numeral a) → IsTrue (is_numeral b) → IsTrue (numeral_is_below a b) ↔ (value a <ℤ value b) }
{}

/// The first wrong line is the first with which no text of an annotation begins, or the one behind lines that are no whole text.
pub fn first_wrong_line_cannot_stand()
    ensures { (lines : List (List ℕ)) (line : ℕ) → FirstWrongOfText lines line → (n : ℕ) × (line ≡ n + 1) × StandOnly n lines }
{}

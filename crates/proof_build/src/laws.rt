//! What unwindings of a graph are worth.

ghost use Rattle.std.specs.Prelude.{List};
ghost use Rattle.nwa_base.specs.Automata.{Automaton, IsAutomaton};
ghost use Rattle.letter_acts.specs.Invariant.{Graph, IsGraph};
ghost use Rattle.proof_form.specs.Annotations.{Content};
ghost use Rattle.proof_names.specs.Items.{Names};
ghost use Rattle.proof_names.specs.Outlines.{Sketch};
ghost use Rattle.proof_names.specs.ProofSpell.Drafts.{MayBeSpelled};
ghost use Rattle.proof_names.specs.ProofSpell.Spelled.{Outlines};
ghost use Rattle.proof_check.specs.Proves.{Proves};
ghost use Rattle.proof_build.specs.Unwindings.{Unwinding, draft_of};
ghost use Rattle.proof_build.specs.Unwound.{AreCovering, IsUnwound};

/// An unwinding by automata that accept all error words may be spelled, and an annotation that says it proves the graph.
pub fn unwinding_proves()
    ensures spelled { (g : Graph) (bs : List Automaton) (u : Unwinding) → IsGraph g → IsAutomaton g.automaton → IsUnwound g bs u → MayBeSpelled g (draft_of u) }
    ensures proves { (g : Graph) (bs : List Automaton) (u : Unwinding) → IsGraph g → IsAutomaton g.automaton → IsUnwound g bs u → AreCovering g.automaton bs →
        (a : Content) (s : Sketch) → Names g a s → Outlines g s (draft_of u) → Proves g a }
{}

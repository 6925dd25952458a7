//! What a search in which all nodes are opened is worth.

ghost use Rattle.std.specs.Prelude.{List, length};
ghost use Rattle.nwa_base.specs.Automata.{Automaton};
ghost use Rattle.proof_names.specs.Outlines.{OutlineNode};
ghost use Rattle.proof_build.specs.ProofUnwind.Unwindings.{ClosesUnwinding};
ghost use Rattle.proof_build.specs.ProofUnwind.Exploring.{AreOpened};

/// Once all nodes are opened, all steps and backs that are due are there.
pub fn opened_closed()
    ensures { (m : Automaton) (nodes : List OutlineNode) (s : Automaton) → AreOpened m nodes s (length nodes) → ClosesUnwinding m nodes s }
{}

//! What the definitions say above the code.

ghost use Rattle.std.specs.Prelude.{◌≡◌};
ghost use Rattle.letter_acts.specs.Invariant.{Graph};
ghost use Rattle.proof_form.specs.Annotations.{Content};
ghost use Rattle.proof_names.specs.Items.{Names};
ghost use Rattle.proof_names.specs.Outlines.{Sketch};

/// The lines of nodes name one thing each: all that an annotation names in a graph has the same nodes.
pub fn nodes_are_named_once()
    ensures { (g : Graph) (a : Content) (s t : Sketch) → Names g a s → Names g a t → s.nodes ≡ t.nodes }
{}

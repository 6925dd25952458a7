//! Laws of predicates, systems and triples, over the definitions that contracts cite.

ghost use Rattle.std.specs.Prelude.{◌↔◌, ℕ, ℤ, List};
ghost use Rattle.lin_rows.specs.declared.systems.System.{System};
ghost use Rattle.lin_rows.specs.Systems.{Meets};
ghost use Rattle.letter_acts.specs.Invariant.{Graph, IsGraph, alphabet_of};
ghost use Rattle.farkas_check.specs.Nodes.{PlainNode};
ghost use Rattle.triple_rows.specs.declared.triples.Triple.{Triple};
ghost use Rattle.triple_rows.specs.Systems.{IsSystem};
ghost use Rattle.triple_rows.specs.Triples.{Agrees, HasTarget, IsValid, IsRefuted, system_of};

/// No whole point meets the system of a triple exactly where the triple is valid.
pub fn system_is_exact()
    ensures { (g : Graph) (triple : Triple) (s : System) → IsGraph g → HasTarget triple → Agrees (alphabet_of g) triple →
        IsSystem (system_of (alphabet_of g) triple) s → ((point : ℕ → ℤ) → Meets point s → ⊥) ↔ IsValid (alphabet_of g) triple }
{}

/// A triple that is refuted is valid.
pub fn refuted_is_valid()
    ensures { (g : Graph) (triple : Triple) (nodes : List PlainNode) → IsGraph g → HasTarget triple → Agrees (alphabet_of g) triple →
        IsRefuted (alphabet_of g) triple nodes → IsValid (alphabet_of g) triple }
{}

//! Laws of the search, over the definitions that contracts cite.

ghost use Rattle.std.specs.Prelude.{ℕ, List, Option};
ghost use Rattle.nwa_base.specs.declared.letters.Letter.{Letter};
ghost use Rattle.nwa_base.specs.Members.{Member};
ghost use Rattle.nwa_base.specs.Automata.{Automaton};
ghost use Rattle.nwa_base.specs.Acceptance.{Accepts};
ghost use Rattle.nwa_emptiness.specs.Closed.{IsClosed, NoneFinal};
ghost use Rattle.nwa_emptiness.specs.Spelled.{Reaches};

/// Where the pairs are closed under the edges, and none of them ends in a final state, no word is accepted.
pub fn closed_pairs_decide()
    ensures { (m : Automaton) (pairs : List (Option ℕ × ℕ)) → IsClosed m pairs → NoneFinal m pairs → (w : List Letter) → Accepts m w → ⊥ }
{}

/// A word that reaches a final state is accepted.
pub fn reached_words_are_accepted()
    ensures { (m : Automaton) (q : ℕ) (w : List Letter) → Reaches m q w → Member m.finals q → Accepts m w }
{}

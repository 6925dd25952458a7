//! Laws of acceptance, over the definitions that contracts cite.

ghost use Rattle.std.specs.Prelude.{◌≡◌, ◌↔◌, ◌++◌, [], ◌∷◌, ℕ, List, IsTrue, length, slice_index};
ghost use Rattle.nwa_base.specs.declared.letters.Letter.{Letter};
ghost use Rattle.nwa_base.specs.Words.{are_matched, HasMatches};
ghost use Rattle.nwa_base.specs.Automata.{Automaton, SameEdges};
ghost use Rattle.nwa_base.specs.Acceptance.{Follows, AcceptsFrom, Accepts, Moves};
ghost use Rattle.nwa_base.specs.Runs.{IsAcceptingRun};

/// A word has no pending return exactly where counting back from each return finds its call.
pub fn matched_by_counting()
    ensures { (w : List Letter) → IsTrue (are_matched 0 w) ↔ HasMatches [] w }
{}

/// A word is accepted exactly where some run over it, read by its places, ends in a final state.
pub fn accepted_by_run()
    ensures { (m : Automaton) (w : List Letter) → Accepts m w ↔ ((run : List ℕ) × IsAcceptingRun m w run) }
{}

/// A run that is cut at a place: the state there is reached by the letters before, and the letters after are accepted from it.
pub fn run_cut()
    ensures { (m : Automaton) (u v : List Letter) (run : List ℕ) → IsAcceptingRun m (u ++ v) run →
        (before : List ℕ) × Moves m [] m.start u before (slice_index run (length u)) ×
        AcceptsFrom m before (slice_index run (length u)) v }
{}

/// A way through a word is a way through its front and one through its rest.
pub fn moves_cut()
    ensures { (m : Automaton) (u v : List Letter) (before after : List ℕ) (q e : ℕ) →
        Moves m before q (u ++ v) after e ↔
        ((mid : List ℕ) × (r : ℕ) × Moves m before q u mid r × Moves m mid r v after e) }
{}

/// A word is accepted exactly where a way through its front leads to a state from which the rest is.
pub fn accepts_cut()
    ensures { (m : Automaton) (u v : List Letter) (before : List ℕ) (q : ℕ) →
        AcceptsFrom m before q (u ++ v) ↔
        ((mid : List ℕ) × (r : ℕ) × Moves m before q u mid r × AcceptsFrom m mid r v) }
{}

/// A way through a word that ends in a letter is a way through the word before it, and an edge.
pub fn moves_last()
    ensures { (m : Automaton) (w : List Letter) (a : Letter) (before after : List ℕ) (q e : ℕ) →
        Moves m before q (w ++ a ∷ []) after e ↔
        ((mid : List ℕ) × (r : ℕ) × Moves m before q w mid r × Follows m a.kind a mid r e (λ stack. stack ≡ after)) }
{}

/// A segment in which each return has a match leads where it leads by itself: the calls that were open before stay as they are.
pub fn moves_matched()
    ensures { (m : Automaton) (w : List Letter) (before after : List ℕ) (q e : ℕ) → IsTrue (are_matched 0 w) →
        Moves m before q w after e ↔ ((own : List ℕ) × (after ≡ own ++ before) × Moves m [] q w own e) }
{}

/// Automata with one start and with edges and final states that are equal as sets accept the same words.
pub fn same_edges_accept()
    ensures { (m n : Automaton) (w : List Letter) → SameEdges m n → Accepts m w ↔ Accepts n w }
{}

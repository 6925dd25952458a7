//! Laws of path rows, over the definitions that contracts cite.

ghost use Rattle.std.specs.Prelude.{◌≡◌, ◌↔◌, [], ◌∷◌, ℕ, ℤ, List};
ghost use Rattle.std.specs.List.{AllByRecursion};
ghost use Rattle.lin_rows.specs.Rows.{Holds};
ghost use Rattle.nwa_base.specs.declared.letters.Letter.{Letter};
ghost use Rattle.nwa_base.specs.Automata.{IsAutomaton};
ghost use Rattle.nwa_base.specs.Acceptance.{Accepts};
ghost use Rattle.letter_acts.specs.Meaning.{Situation};
ghost use Rattle.letter_acts.specs.Feasible.{Obeys};
ghost use Rattle.letter_acts.specs.Invariant.{Graph, IsGraph, alphabet_of, IsPlaceOf};
ghost use Rattle.path_rows.specs.Paths.{path_of};
ghost use Rattle.path_rows.specs.Solutions.{Solves, ReadOff, SolvedBy};

/// A whole point meets the rows of an accepted word exactly where it reads as frame states that obey each letter, with the
/// helpers that it has at the letter's columns.
pub fn rows_say_states()
    ensures { (g : Graph) (w : List Letter) (point : ℕ → ℤ) → IsGraph g → IsAutomaton g.automaton → Accepts g.automaton w →
        AllByRecursion (Holds point) (path_of g w).rows ↔ Solves point g w }
{}

/// A whole point that meets the rows of an accepted word has frame states at its positions that obey the word.
pub fn solutions_are_read_off()
    ensures { (g : Graph) (w : List Letter) (point : ℕ → ℤ) → IsGraph g → IsAutomaton g.automaton → Accepts g.automaton w →
        AllByRecursion (Holds point) (path_of g w).rows → ReadOff point g w }
{}

/// Frame states that obey an accepted word are those of a whole point that meets its rows. Where the word is empty, the
/// state is to be one of the procedure of the start.
pub fn obeying_states_are_solved()
    ensures { (g : Graph) (w : List Letter) (first : Situation) (more : List Situation) → IsGraph g → IsAutomaton g.automaton → Accepts g.automaton w →
        Obeys (alphabet_of g) w first more → (w ≡ [] → IsPlaceOf g.place_procs first.proc g.automaton.start) → SolvedBy g w (first ∷ more) }
{}

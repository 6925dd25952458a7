//! What is true of the words that are kept.

ghost use Rattle.std.specs.Prelude.{◌≡◌, List, [], ◌∷◌, ◌++◌, length};
ghost use Rattle.nwa_base.specs.Automata.{Automaton};
ghost use Rattle.nwa_base.specs.Acceptance.{Accepts};
ghost use Rattle.race_core.specs.declared.events.Entry.{Entry};
ghost use Rattle.race_core.specs.Histories.{Removed, Keeps, IsFair};
ghost use Rattle.race_workers.specs.KeptWords.Without.{IsWithout};

use race_core::Evidence;

/// What is kept less the words of an entry's automaton is what is kept behind the entry.
pub fn kept_behind_entries<E: Evidence>()
    ensures { (program kept next : Automaton) (h : List (Entry E)) (e : Entry E) → Keeps E.automaton program h kept →
        IsWithout kept (E.automaton e.evidence) next → Keeps E.automaton program (h ++ e ∷ []) next }
{}

/// A kept word, with an automaton that accepts it and what is kept less the words of that, may be published.
pub fn kept_words_are_published<E: Evidence>()
    ensures { (program kept next : Automaton) (h : List (Entry E)) (e : Entry E) → Keeps E.automaton program h kept →
        Accepts kept e.word → Accepts (E.automaton e.evidence) e.word → IsWithout kept (E.automaton e.evidence) next →
        IsFair E.automaton program h (length h) e next }
{}

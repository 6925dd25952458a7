//! What the race knows of the automata that workers publish.

ghost use Rattle.std.specs.Prelude.{◌≡◌, ℕ, List};
ghost use Rattle.nwa_base.specs.declared.letters.Letter.{Letter};
ghost use Rattle.nwa_base.specs.Automata.{Automaton};
ghost use Rattle.nwa_base.specs.Acceptance.{Accepts};

use nwa_base::Nwa;

/// An automaton that accepts infeasible words only. `feasible` is the trait's own meaning of a feasible word: whoever
/// implements it says which words those are, and shows the clause `infeasible`.
pub trait Evidence: Send + Sync + Drop {
    ghost automaton: { Self → Automaton };

    ghost feasible: { Self → List Letter → Type 0 };

    /// The automaton. No word that it accepts is feasible.
    fn nwa(&self) -> &Nwa
        ensures value { result.now ≡ automaton self.now }
        ensures infeasible { (w : List Letter) → Accepts (automaton self.now) w → feasible self.now w → ⊥ };
}

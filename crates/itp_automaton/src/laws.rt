//! What a certified automaton is worth.

ghost use Rattle.std.specs.Prelude.{List};
ghost use Rattle.nwa_base.specs.declared.letters.Letter.{Letter};
ghost use Rattle.nwa_base.specs.Acceptance.{Accepts};
ghost use Rattle.letter_acts.specs.Acts.{Alphabet};
ghost use Rattle.letter_acts.specs.Feasible.{IsFeasible};
ghost use Rattle.itp_automaton.specs.Certified.{Certificate, IsCertified};

/// No word that a certified automaton accepts is feasible (Heizmann, Hoenicke, Podelski, 2010 and 2013).
pub fn certified_words_are_infeasible()
    ensures { (al : Alphabet) (c : Certificate) → IsCertified al c → (w : List Letter) → Accepts c.automaton w → IsFeasible al w → ⊥ }
{}

//! The law of the product, over the definitions that contracts cite.

ghost use Rattle.std.specs.Prelude.{◌↔◌, ℕ, List, Option};
ghost use Rattle.nwa_base.specs.declared.letters.Letter.{Letter};
ghost use Rattle.nwa_base.specs.Automata.{Automaton};
ghost use Rattle.nwa_base.specs.Acceptance.{Accepts};
ghost use Rattle.nwa_difference.specs.Product.{IsProduct};

/// The product accepts a word exactly where the first automaton does and the second does not, whatever calls are pending.
pub fn products_are_exact()
    ensures { (a b d : Automaton) (first : ℕ → ℕ) (set : ℕ → List (ℕ × ℕ)) (pairs : List (Option ℕ × ℕ)) → IsProduct a b d first set pairs →
        (w : List Letter) → Accepts d w ↔ (Accepts a w × (Accepts b w → ⊥)) }
{}

//! Laws of smaller automata, over the definitions that contracts cite.

ghost use Rattle.std.specs.Prelude.{ℕ, ◌↔◌, List, Option};
ghost use Rattle.nwa_base.specs.declared.letters.Letter.{Letter};
ghost use Rattle.nwa_base.specs.Automata.{Automaton};
ghost use Rattle.nwa_base.specs.Acceptance.{Accepts};
ghost use Rattle.nwa_reduce.specs.Images.{IsImage, IsSafe};

/// Where only useless states are left out, and states of one name are alike, the image accepts the same words.
pub fn images_accept()
    ensures { (m n : Automaton) (name : ℕ → Option ℕ) → IsImage m name n → IsSafe m name → (w : List Letter) → Accepts m w ↔ Accepts n w }
{}

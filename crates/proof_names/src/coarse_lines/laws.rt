//! What the definitions say above the code.

ghost use Rattle.std.specs.Prelude.{◌≡◌, ◌↔◌, ◌<◌, ◌^◌, ◌&&◌, ℕ, List, None, IsTrue, length, nat_eq};
ghost use Rattle.std.specs.List.{AllByRecursion, list_any};
ghost use Rattle.letter_acts.specs.Invariant.{Graph};
ghost use Rattle.proof_form.specs.Annotations.{Content, AreShort};
ghost use Rattle.proof_names.specs.CoarseLines.CoarseLetters.{is_told, coarse_letters, first_wrong, first_missing};

/// No coarse line is wrong and none is missing exactly where they are those of the coarse letters that triples name.
pub fn right_lines_are_the_letters()
    ensures { (g : Graph) (coarse : List ℕ) (a : Content) →
        ((first_wrong g coarse a ≡ None) × (first_missing g coarse a ≡ None)) ↔ (coarse ≡ coarse_letters g a) }
{}

/// The coarse letters that triples name have 32 bits, and a letter is one of them exactly where it is coarse and a triple names it.
pub fn letters_are_those_told()
    ensures short { (g : Graph) (a : Content) → AreShort (coarse_letters g a) }
    ensures told { (g : Graph) (a : Content) (n : ℕ) → list_any (nat_eq n) (coarse_letters g a) ≡ is_told g a.triples n }
{}

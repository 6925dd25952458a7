//! Laws of reading, over the definitions that contracts cite.

ghost use Rattle.std.specs.Prelude.{◌≡◌, ◌<◌, ◌↔◌, ℕ, List, [], ◌∷◌, ◌++◌, length};
ghost use Rattle.nwa_base.specs.declared.letters.Letter.{Letter};
ghost use Rattle.nwa_base.specs.Acceptance.{Accepts};
ghost use Rattle.nwa_base.specs.Pairs.{HasFinal};
ghost use Rattle.nwa_determinise.specs.Kept.{Kept, Grows, set_at};
ghost use Rattle.nwa_determinise.specs.Reads.{LeadsTo, Reads, ReadsFromStart};

/// A word that leads to a set is accepted exactly where a pair of the set ends in a final state.
pub fn read_words_are_accepted_by_their_set()
    ensures { (d : Kept) (w : List Letter) (t : ℕ) → ReadsFromStart d w t → HasFinal d.nwa (set_at d t) ↔ Accepts d.nwa w }
{}

/// What was read stays read while more sets are kept.
pub fn readings_stay()
    ensures { (d e : Kept) (w : List Letter) (t : ℕ) → Grows d e → ReadsFromStart d w t → ReadsFromStart e w t }
{}

/// A word is read on by one letter more.
pub fn readings_go_on()
    ensures { (d : Kept) (w : List Letter) (a : Letter) (before after : List ℕ) (s r t : ℕ) (mid : List ℕ) →
        Reads d before s w mid r → LeadsTo d a.kind a mid r after t → Reads d before s (w ++ a ∷ []) after t }
{}

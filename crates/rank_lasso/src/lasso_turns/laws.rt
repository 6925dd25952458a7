//! The law of turns, over the definitions that contracts cite.

ghost use Rattle.std.specs.Prelude.{◌↔◌, ◌<◌, ℕ, ℤ, List, length};
ghost use Rattle.letter_acts.specs.Invariant.{Graph, IsGraph, alphabet_of};
ghost use Rattle.rank_lasso.specs.LassoTurns.Turns.{AreInside, turn_of, LeadsAlong, IsSolvedTurn};

/// States obey inside letters of a procedure exactly where a whole point meets the rows of their turn, with the states before and
/// after it.
pub fn turns_say_states()
    ensures { (g : Graph) (p : ℕ) (ns : List ℕ) (s u : List ℤ) → IsGraph g → p < length g.frames → AreInside (alphabet_of g) p ns →
        LeadsAlong (alphabet_of g) p ns s u ↔ IsSolvedTurn (turn_of (alphabet_of g) p ns) s u }
{}

//! Laws.

ghost use Rattle.std.specs.Prelude.{ℕ, ◌≤◌};
ghost use Rattle.automizer_top.specs.GeneratedProgram.Laws.{IsTyped, IsLowered, IsSized};

/// The generated program of 1 to 200 procedures in its chain is typed.
pub fn generated_programs_are_typed()
    ensures { (count : ℕ) → 1 ≤ count → count ≤ 200 → IsTyped count }
{}

/// The generated program of 200 procedures at most is lowered.
pub fn generated_programs_are_lowered()
    ensures { (count : ℕ) → 1 ≤ count → count ≤ 200 → IsLowered count }
{}

/// The generated program of 1 to 200 procedures in its chain has one more with `main`, 5 places and 5 letters for each in its chain and 3 and
/// 2 besides, and an assertion for each.
pub fn generated_programs_are_sized()
    ensures { (count : ℕ) → 1 ≤ count → count ≤ 200 → IsSized count }
{}

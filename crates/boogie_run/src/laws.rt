//! Laws of runs.

ghost use Rattle.std.specs.Prelude.{◌≡◌, ◌++◌, ℕ, ℤ, List, Option};
ghost use Rattle.typed_tree.specs.TypedTree.{TypedProgram};
ghost use Rattle.boogie_run.specs.Configurations.{Config};
ghost use Rattle.boogie_run.specs.Steps.{Failed};
ghost use Rattle.boogie_run.specs.Laws.{ConstantsStay, TruthsStay};
ghost use Rattle.boogie_run.specs.Runs.{then_goes_on, run};

/// A run is cut at any position: it leads where the run of the first choices leads, and from there that of the others.
pub fn runs_are_cut()
    ensures { (t : TypedProgram) (c : Config) (xs ys : List (Option ℤ)) → run t c (xs ++ ys) ≡ then_goes_on (run t c xs) (λ d. run t d ys) }
{}

/// A run that fails an assertion has failed it whatever follows.
pub fn failures_stay()
    ensures { (t : TypedProgram) (c : Config) (xs ys : List (Option ℤ)) (i : ℕ) → run t c xs ≡ Failed i → run t c (xs ++ ys) ≡ Failed i }
{}

/// In a run of a valid program the constants at the entry of each frame are the constants now.
pub fn constants_stay()
    ensures { ConstantsStay }
{}

/// In a run of a valid program boolean variables hold 0 or 1.
pub fn truths_stay()
    ensures { TruthsStay }
{}

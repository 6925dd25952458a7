//! Laws of runs of programs whose graphs annotations prove.

ghost use Rattle.explained_proof.specs.KnownRuns.Laws as law;

/// Each whole configuration of a run is described by a node of the annotation, whose entry node is one of its procedure or, in the entry
/// procedure, one that begins a run.
pub fn runs_are_described()
    ensures { law.RunsAreDescribed }
{}

/// Behind the start of a run it is described from each entry node of its procedure whose predicates hold where its frame was entered.
pub fn frames_are_described()
    ensures { law.FramesAreDescribed }
{}

/// And a configuration of the entry procedure, also where it was called, is described from each node that begins a run.
pub fn starts_are_described()
    ensures { law.StartsAreDescribed }
{}

/// Behind the start, its frame was entered in some state that a node knows, and is described from each entry node that knows it.
pub fn frames_are_entered()
    ensures { law.FramesAreEntered }
{}

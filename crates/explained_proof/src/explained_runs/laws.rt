//! Laws of explained programs whose graphs annotations prove.

ghost use Rattle.explained_proof.specs.ExplainedRuns.Laws as law;
ghost use Rattle.explained_proof.specs.ExplainedRuns.Sited as sited;

/// What is told as invariants and assertions holds at every place of a body that a run reaches.
pub fn bodies_hold()
    ensures { law.BodiesHold }
{}

/// What is told as ensures holds wherever the procedure returns.
pub fn ensures_hold()
    ensures { law.EnsuresHold }
{}

/// What is told as requires holds wherever the procedure was called and begins.
pub fn requires_hold()
    ensures { law.RequiresHold }
{}

/// Each loop of a body is told what holds at the place at which runs stand before it.
pub fn loops_are_told_where_they_stand()
    ensures { sited.LoopsAreTold }
{}

/// Where a run stands before a loop it stands at one of the heads of the body.
pub fn heads_are_listed()
    ensures { sited.HeadsAreListed }
{}

/// The invariants that a loop is told are true whenever a run stands before it.
pub fn invariants_hold()
    ensures { sited.InvariantsHold }
{}

/// What is asserted behind a label, if anything, is what holds at the place where runs stand there.
pub fn labels_are_told_where_they_stand()
    ensures { sited.LabelsAreTold }
{}

/// What is asserted behind a label is true whenever a run stands there.
pub fn assertions_hold()
    ensures { sited.AssertionsHold }
{}

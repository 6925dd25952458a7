//! Laws of the places of typed programs.

ghost use Rattle.boogie_run.specs.BoogiePlaces.Laws as law;

/// The places of a program behind its start have consecutive numbers in the order of the text, so a number is that of one place;
/// a body begins at one of its points, and each point leads to points of the same body, those of the start to these and to the
/// entry procedure's.
pub fn places_of_typed_programs()
    ensures numbered { law.PlacesAreNumbered }
    ensures differ { law.NumbersDiffer }
    ensures begin { law.BodiesBegin }
    ensures lead { law.PointsLeadToPoints }
    ensures starts { law.StartsLeadToPoints }
{}

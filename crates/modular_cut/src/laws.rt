//! Laws of the parts of a typed program.

ghost use Rattle.modular_cut.specs.Laws.{PartsAreTyped, PartsSuffice};

/// A part keeps the typing rules, and a program is safe where each of its parts is.
pub fn parts_of_typed_programs()
    ensures typed { PartsAreTyped }
    ensures suffice { PartsSuffice }
{}

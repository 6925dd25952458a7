//! What was read is read again from the signs of its canonical text, apart from places.

ghost use Rattle.boogie_parse.specs.Spelling.Respelled.{ProgramsAreReadAgain, LimitsAreKept, TextsAreReadAgain};

/// Symbols with the signs of a program that was read are read as it, apart from places, and within the limits that it was within. So a text whose
/// tokens have the signs of a program is that program, apart from places.
pub(crate) fn programs_are_read_again()
    ensures grammar { ProgramsAreReadAgain }
    ensures limits { LimitsAreKept }
    ensures texts { TextsAreReadAgain }
{}

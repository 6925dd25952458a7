//! Laws of traces, over the definitions that contracts cite.

ghost use Rattle.explain_top.specs.TraceStory.TraceWorth.{UnknownTextsAreTraces, LettersAreTheirNumbers};

/// What is printed of a word of which nothing is known is the text of its trace.
pub fn unknown_texts_are_traces()
    ensures { UnknownTextsAreTraces }
{}

/// The numbers of letters that the graph has are those of these letters.
pub fn letters_are_their_numbers()
    ensures { LettersAreTheirNumbers }
{}

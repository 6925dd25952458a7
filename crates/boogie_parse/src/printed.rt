//! What the text of a program has to do with the program.

ghost use Rattle.std.specs.Prelude.{ℕ, List};
ghost use Rattle.boogie_tree.specs.Tree.{Declaration};
ghost use Rattle.boogie_parse.specs.Rules.GrammarLimits.{IsInGrammar, IsProgram};
ghost use Rattle.boogie_parse.specs.Rules.GrammarProgram.{joined_groups};
ghost use Rattle.boogie_parse.specs.Spelling.PrintedTokens.{IsSpellableProgram, HasSigns};

/// The text of a program whose names are names and whose literals are in range has the signs of the program, token by token.
pub(crate) fn printed_text_has_its_signs()
    ensures { (ds : List Declaration) → IsSpellableProgram ds → HasSigns ds }
{}

/// What is read from a text has names that are names and literals that are in range. So the text that a program is printed as has its signs.
pub(crate) fn read_programs_are_spellable()
    ensures spellable { (text : List ℕ) (groups : List (List Declaration)) → IsInGrammar text groups → IsSpellableProgram (joined_groups groups) }
    ensures printed { (text : List ℕ) (program : List Declaration) → IsProgram text program → HasSigns program }
{}

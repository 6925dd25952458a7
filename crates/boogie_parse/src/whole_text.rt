//! Programs of whole texts.

ghost use Rattle.std.specs.Prelude.{◌≡◌, ℕ, ◌+◌, ◌<◌, ◌^◌, List, length, Ok, Err, IfOk, IfErr};
ghost use Rattle.boogie_tree.specs.Tree.{Declaration};
ghost use Rattle.boogie_tree.specs.View.{program};
ghost use Rattle.boogie_parse.specs.declared.fault.Fault.{Fault};
ghost use Rattle.boogie_parse.specs.Lexing.Lexed.{lexed};
ghost use Rattle.boogie_parse.specs.Rules.GrammarLimits.{IsProgram};
ghost use Rattle.boogie_parse.specs.Reading.ListViews.{Gives};
ghost use Rattle.boogie_parse.specs.Spelling.PrintedTokens.{IsSpellableProgram};
ghost use Rattle.boogie_parse.specs.Spelling.Parentheses.{ParenthesesAreNeeded};
ghost use Rattle.boogie_parse.specs.Spelling.Respelled.{IsProgramAgain};
ghost use Rattle.boogie_tree.specs.Printing.{program_text};
ghost use Rattle.boogie_parse.specs.Rules.WholeText.{text_end, read_text, IsOrMemory, IsOutside, IfSyntax, IfLimit, IsLimitAt, IfTokenFault, IsFaultOf};

use crate::fault::Fault;
use crate::grammar::parser::Parser;
use crate::lexer::{behind, lex};
use crate::symbols::symbols;
use boogie_tree::{Program, Span};
use std::alloc::Global;

/// The place just past the text's end.
fn end_of(text: &[u8]) -> Span
    requires { length text.now + 1 < 2 ^ 32 }
    ensures { result ≡ text_end text.now }
{
    behind(text, Span { line: 1, col: 1 })
}

/// The program that a text spells; else the first fault.
///
/// A fault of the tokens comes before all others. The first of the others is told where the reading of the grammar comes upon it:
/// `Syntax` at a token that can't stand there, or just past the text's end; `Limit` at a token that goes past a limit: 200 open
/// parentheses, 200 open blocks, an expression 200 deep, 1,000 variables in one declaration, 1,000 procedures. Takes time and
/// memory linear in the text.
pub fn parse(alloc: Global, text: &[u8]) -> Result<Program, Fault>
    requires short { length text.now + 1 < 2 ^ 32 }
    ensures read { Gives program result (read_text text.now) }
    ensures found { IfOk result (λ p. IsProgram text.now (program p)) }
    ensures syntax { IfErr result (λ f. IfSyntax f (IsOutside text.now)) }
    ensures only { (ds : List Declaration) → IsProgram text.now ds → IsOrMemory result ds }
    ensures limits { IfErr result (λ f. IfLimit f (IsLimitAt text.now)) }
    ensures tokens { IfErr result (λ f. IfTokenFault f (lexed text.now ≡ Err f)) }
    ensures again { IfOk result (λ p. IsProgramAgain (program_text (program p)) (program p)) }
    ensures spellable { IfOk result (λ p. IsSpellableProgram (program p)) }
{
    let tokens = lex(alloc, text)?;
    let symbols = symbols(alloc, tokens)?;
    let end = end_of(text);
    (Parser { alloc, end }).program(&symbols)
}

/// The text that a program of a text is printed as spells that program, apart from places. So `parse` of what `print` wrote
/// of a program that was parsed gives that program, apart from places, where it is short enough and memory is found.
pub fn printed_programs_are_read_again()
    ensures { (text : List ℕ) (ds : List Declaration) → IsProgram text ds → IsProgramAgain (program_text ds) ds }
{}

/// The names of a program that a text spells are names of the language, no keyword among them, and its literals are in range.
pub fn programs_are_spellable()
    ensures { (text : List ℕ) (ds : List Declaration) → IsProgram text ds → IsSpellableProgram ds }
{}

/// The text that a program is printed as opens no more parentheses than any text of that program. So none of its parentheses is
/// superfluous: without it the grammar reads another program.
pub fn parentheses_are_needed()
    ensures { ParenthesesAreNeeded }
{}

/// A text spells one program at most.
pub fn one_program_tree()
    ensures { (text : List ℕ) (a b : List Declaration) → IsProgram text a → IsProgram text b → a ≡ b }
{}

/// What a text is read as is its program by the grammar, within the limits, and the other way round; a fault that it is read with says
/// why it is none.
pub fn texts_are_read()
    ensures sound { (text : List ℕ) (ds : List Declaration) → read_text text ≡ Ok ds → IsProgram text ds }
    ensures complete { (text : List ℕ) (ds : List Declaration) → IsProgram text ds → read_text text ≡ Ok ds }
    ensures faults { (text : List ℕ) (f : Fault) → read_text text ≡ Err f → IsFaultOf text f }
{}

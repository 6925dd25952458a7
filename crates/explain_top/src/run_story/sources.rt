//! The items of a program, each told by the part of the tree that it is printed from.

ghost use Rattle.std.specs.Prelude.{◌≡◌, ◌++◌, ◌∷◌, [], map, slice_get, codes, OnOk};
ghost use Rattle.boogie_tree.specs.Printing.{expression_text, expressions_text, names_text, targets_text, guard_text};
ghost use Rattle.boogie_tree.specs.View as view;
ghost use Rattle.explain_top.specs.RunStory.Items as spec;
ghost use Rattle.explain_top.specs.RunStory.Notes.{way, way_taken};
ghost use Rattle.explain_top.specs.RunStory.Lines.{Adds};
ghost use Rattle.explain_top.specs.RunStory.Seen.{item_of, statement_item, word_text};

use crate::run_story::lines::{Line, add, next_note};
use boogie_tree::printing::{
    append, expression, guard, leaving, listed_expressions, listed_names, results, signature,
    targets, variable,
};
use boogie_tree::{Expr, Guard, Inv, Name, Proc, Span, Stmt, Vary};
use std::alloc::AllocError;

/// What an item is printed from.
#[derive(Clone, Copy)]
pub(crate) enum Source<'a> {
    Nowhere,
    /// A variable behind its word.
    Variable(Word, &'a Vary),
    /// The head of a procedure, for what stands there.
    Head(Span, &'a Proc),
    /// Where a procedure returns.
    Return(&'a Proc),
    Axiom(&'a Expr),
    /// A condition behind its word.
    Condition(Word, &'a Inv),
    Statement(&'a Stmt),
}

/// The words that begin lines.
#[derive(Clone, Copy)]
pub(crate) enum Word {
    Const,
    Var,
    Requires,
    Ensures,
    Invariant,
}

/// The word as it is printed.
fn spelled(word: Word) -> &'static [u8]
    ensures { result.now ≡ word_text word }
{
    match word {
        Word::Const => b"const",
        Word::Var => b"var",
        Word::Requires => b"requires",
        Word::Ensures => b"ensures",
        Word::Invariant => b"invariant",
    }
}

/// Where a statement stands; labels, which take no step, stand nowhere.
fn statement_span(statement: &Stmt) -> Span
    ensures { result ≡ (statement_item (view.statement statement.now)).at }
{
    match statement {
        Stmt::Assert(span, _) | Stmt::Assume(span, _) | Stmt::Havoc(span, _) => *span,
        Stmt::Assign(span, _, _) | Stmt::Call(span, _, _, _) => *span,
        Stmt::If(span, _, _, _) | Stmt::While(span, _, _, _) | Stmt::Break(span, _) => *span,
        Stmt::Goto(span, _) | Stmt::Return(span) => *span,
        Stmt::Label(_) => Span { line: 1, col: 1 },
    }
}

/// Where an item stands.
pub(crate) fn span(source: Source<'_>) -> Span
    ensures { result ≡ (item_of source.entry).at }
{
    match source {
        Source::Nowhere => Span { line: 1, col: 1 },
        Source::Variable(_, variable) => variable.name.span,
        Source::Head(span, _) => span,
        Source::Return(procedure) => procedure.span,
        Source::Axiom(axiom) => axiom.span,
        Source::Condition(_, condition) => condition.span,
        Source::Statement(statement) => statement_span(statement),
    }
}

/// A word and an expression.
fn claim(out: &mut Vec<u8>, word: &[u8], claim: &Expr) -> Result<(), AllocError>
    ensures { OnOk result (out.new.items ≡ out.old.items ++ (word.now ++ expression_text (view.expression claim.now))) }
{
    append(out, word)?;
    expression(out, claim)
}

/// A word and names.
fn named(out: &mut Vec<u8>, word: &[u8], names: &[Name]) -> Result<(), AllocError>
    ensures { OnOk result (out.new.items ≡ out.old.items ++ (word.now ++ names_text names.now)) }
{
    append(out, word)?;
    listed_names(out, names)
}

/// An assignment.
fn assignment(out: &mut Vec<u8>, names: &[Name], values: &[Expr]) -> Result<(), AllocError>
    ensures { OnOk result (out.new.items ≡ out.old.items ++ (names_text names.now ++ (codes " := " ++ expressions_text (map view.expression values.now)))) }
{
    listed_names(out, names)?;
    append(out, b" := ")?;
    listed_expressions(out, values)
}

/// A call.
fn call(
    out: &mut Vec<u8>,
    names: &[Name],
    callee: &Name,
    arguments: &[Expr],
) -> Result<(), AllocError>
    ensures { OnOk result (out.new.items ≡ out.old.items ++ (codes "call " ++ (targets_text names.now ++ (callee.now.text ++ (codes "(" ++ (expressions_text (map view.expression arguments.now) ++ codes ")")))))) }
{
    append(out, b"call ")?;
    targets(out, names)?;
    append(out, callee.text.bytes())?;
    append(out, b"(")?;
    listed_expressions(out, arguments)?;
    append(out, b")")
}

/// A guard behind its word, in parentheses, of which the first belongs to the word.
fn guarded(out: &mut Vec<u8>, word: &[u8], decided: &Guard) -> Result<(), AllocError>
    ensures { OnOk result (out.new.items ≡ out.old.items ++ (word.now ++ (guard_text (view.guard decided.now) ++ codes ")"))) }
{
    append(out, word)?;
    guard(out, decided)?;
    append(out, b")")
}

/// The line of a statement without its end.
fn statement(out: &mut Vec<u8>, statement: &Stmt) -> Result<(), AllocError>
    ensures { OnOk result (out.new.items ≡ out.old.items ++ (statement_item (view.statement statement.now)).text) }
{
    match statement {
        Stmt::Assert(_, condition) => claim(out, b"assert ", condition),
        Stmt::Assume(_, condition) => claim(out, b"assume ", condition),
        Stmt::Havoc(_, names) => named(out, b"havoc ", names),
        Stmt::Assign(_, names, values) => assignment(out, names, values),
        Stmt::Call(_, names, callee, arguments) => call(out, names, callee, arguments),
        Stmt::If(_, guard, _, _) => guarded(out, b"if (", guard),
        Stmt::While(_, guard, _, _) => guarded(out, b"while (", guard),
        Stmt::Break(_, label) => leaving(out, label),
        Stmt::Goto(_, labels) => named(out, b"goto ", labels),
        Stmt::Return(_) => append(out, b"return"),
        Stmt::Label(_) => Ok(()),
    }
}

/// A variable behind its word.
fn declared(out: &mut Vec<u8>, word: Word, vary: &Vary) -> Result<(), AllocError>
    ensures { OnOk result (out.new.items ≡ out.old.items ++ (spec.variable_item (word_text word) vary.now).text) }
{
    append(out, spelled(word))?;
    append(out, b" ")?;
    variable(out, vary)
}

/// The head of a procedure.
fn head(out: &mut Vec<u8>, procedure: &Proc) -> Result<(), AllocError>
    ensures { OnOk result (out.new.items ≡ out.old.items ++ (spec.head_item procedure.now.span (view.procedure procedure.now)).text) }
{
    signature(out, b"procedure", &procedure.name, &procedure.params)?;
    results(out, &procedure.results)
}

/// A condition behind its word.
fn condition(out: &mut Vec<u8>, word: Word, condition: &Inv) -> Result<(), AllocError>
    ensures { OnOk result (out.new.items ≡ out.old.items ++ (spec.condition_item (word_text word) (view.invariant condition.now)).text) }
{
    append(out, if condition.free { b"free " } else { b"" })?;
    append(out, spelled(word))?;
    append(out, b" ")?;
    expression(out, &condition.cond)
}

/// The line of an item without its end.
pub(crate) fn text(out: &mut Vec<u8>, source: Source<'_>) -> Result<(), AllocError>
    ensures { OnOk result (out.new.items ≡ out.old.items ++ (item_of source.entry).text) }
{
    match source {
        Source::Nowhere => Ok(()),
        Source::Variable(word, variable) => declared(out, word, variable),
        Source::Head(_, procedure) => head(out, procedure),
        Source::Return(_) => append(out, b"}"),
        Source::Axiom(axiom) => claim(out, b"axiom ", axiom),
        Source::Condition(word, said) => condition(out, word, said),
        Source::Statement(said) => statement(out, said),
    }
}

/// What ends the line of an item.
pub(crate) fn end(source: Source<'_>) -> &'static [u8]
    ensures { result.now ≡ (item_of source.entry).end }
{
    match source {
        Source::Nowhere | Source::Head(_, _) | Source::Return(_) => b"",
        Source::Variable(_, _) | Source::Axiom(_) | Source::Condition(_, _) => b";",
        Source::Statement(statement) => match statement {
            Stmt::If(_, _, _, _) => b" {",
            Stmt::While(_, _, _, _) | Stmt::Break(_, _) | Stmt::Label(_) => b"",
            _ => b";",
        },
    }
}

/// Adds the way to a label.
fn to_label(line: &mut Line, label: &Name) -> Result<(), AllocError>
    ensures { OnOk result (Adds line.old ((codes "to " ++ label.now.text) ∷ []) line.new) }
{
    next_note(line)?;
    append(&mut line.text, b"to ")?;
    append(&mut line.text, label.text.bytes())
}

/// Adds the way to the label of that number, where there is one.
fn way_to(line: &mut Line, labels: &[Name], way: u128) -> Result<(), AllocError>
    ensures { OnOk result (Adds line.old (way_taken (slice_get (map (λ x. codes "to " ++ x.text) labels.now) way)) line.new) }
{
    if way >= labels.len() as u128 {
        return Ok(());
    }
    to_label(line, &labels[way as usize])
}

/// Adds the name of that way of an item, where it has one.
pub(crate) fn take_way(line: &mut Line, source: Source<'_>, taken: u128) -> Result<(), AllocError>
    ensures { OnOk result (Adds line.old (way (item_of source.entry) taken) line.new) }
{
    let Source::Statement(statement) = source else {
        return Ok(());
    };
    match (statement, taken) {
        (Stmt::If(_, _, _, _), 0) => add(line, b"then"),
        (Stmt::If(_, _, _, _), 1) => add(line, b"else"),
        (Stmt::While(_, _, _, _), 0) => add(line, b"enters"),
        (Stmt::While(_, _, _, _), 1) => add(line, b"leaves"),
        (Stmt::Goto(_, labels), way) => way_to(line, labels, way),
        _ => Ok(()),
    }
}

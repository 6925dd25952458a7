//! The items of a program by their places, its variables and its procedures.

ghost use Rattle.std.specs.Prelude.{◌≡◌, ◌∷◌, ◌++◌, [], List, map, codes, IfOk, OnOk, option_and_then};
ghost use Rattle.std.specs.List.{flat_map};
ghost use Rattle.std.specs.Option.{option_map, option_or};
ghost use Rattle.boogie_tree.specs.View as view;
ghost use Rattle.boogie_tree.specs.declared.span.Span.{Span};
ghost use Rattle.boogie_tree.specs.Tree.{Procedure, Declaration};
ghost use Rattle.boogie_types.specs.Sorted.{body_of, body_locals, procedures_of, implementations_of, first_named};
ghost use Rattle.explain_top.specs.RunStory.Items as spec;
ghost use Rattle.explain_top.specs.RunStory.Seen.{item_of};
ghost use Rattle.explain_top.specs.RunStory.Sites.{first_at};
ghost use Rattle.explain_top.specs.RunStory.Tables.{IsTable, AddsItems, AddsNamed, HasImplementations, placed_at, heading_of};

use crate::run_story::sources::{Source, Word, span};
use boogie_tree::{Body, Decl, Inv, Proc, Program, Span, Spec, Stmt, Vary};
use indexmap::IndexMap;
use std::alloc::{AllocError, Global};

/// A procedure, and the variables that its body declares.
#[derive(Clone, Copy)]
pub(crate) struct Heading<'a> {
    pub(crate) procedure: &'a Proc,
    pub(crate) locals: &'a [Vary],
}

/// Items by their places, the first where several have one.
pub(crate) type Items<'a> = IndexMap<Span, Source<'a>>;

/// What the lines of a program's steps are printed from.
#[derive(Drop)]
pub struct Table<'a> {
    pub(crate) items: Items<'a>,
    /// The constants and globals, in order.
    pub(crate) globals: Vec<Source<'a>>,
    /// The procedures, in order.
    pub(crate) procedures: Vec<Heading<'a>>,
}

/// The table of a program.
pub fn table_of(alloc: Global, program: &Program) -> Result<Table<'_>, AllocError>
    ensures { IfOk result (IsTable (view.program program.now)) }
{
    let decls = program.decls.as_slice();
    Ok(Table {
        items: items(alloc, decls)?,
        globals: globals(alloc, decls)?,
        procedures: procedures(alloc, decls)?,
    })
}

/// Adds an item, unless one stands there already.
fn add<'a>(items: &mut Items<'a>, source: Source<'a>) -> Result<(), AllocError>
    ensures { OnOk result (AddsItems items.old (item_of source.entry ∷ []) items.new) }
{
    let at = span(source);
    if items.contains_key(&at) {
        return Ok(());
    }
    items.insert(at, source)?;
    Ok(())
}

fn invariants<'a>(items: &mut Items<'a>, conditions: &'a [Inv]) -> Result<(), AllocError>
    ensures { OnOk result (AddsItems items.old (map (spec.condition_item (codes "invariant")) (map view.invariant conditions.entry.now)) items.new) }
{
    for condition in conditions {
        add(items, Source::Condition(Word::Invariant, condition))?;
    }
    Ok(())
}

/// Adds a statement and those in it. Labels, which take no step, are none.
#[cycle(statements)]
fn statement<'a>(items: &mut Items<'a>, statement: &'a Stmt) -> Result<(), AllocError>
    ensures { OnOk result (AddsItems items.old (spec.statement_items (view.statement statement.entry.now)) items.new) }
{
    match statement {
        Stmt::Label(_) => Ok(()),
        Stmt::If(_, _, then, otherwise) => {
            add(items, Source::Statement(statement))?;
            block(items, then)?;
            block(items, otherwise)
        }
        Stmt::While(_, _, conditions, body) => {
            add(items, Source::Statement(statement))?;
            invariants(items, conditions)?;
            block(items, body)
        }
        _ => add(items, Source::Statement(statement)),
    }
}

#[cycle(statements)]
fn block<'a>(items: &mut Items<'a>, statements: &'a [Stmt]) -> Result<(), AllocError>
    ensures { OnOk result (AddsItems items.old (spec.block_items (view.statements statements.entry.now)) items.new) }
{
    for each in statements {
        statement(items, each)?;
    }
    Ok(())
}

fn specification<'a>(items: &mut Items<'a>, said: &'a Spec) -> Result<(), AllocError>
    ensures { OnOk result (AddsItems items.old (spec.specification_items (view.specification said.entry.now)) items.new) }
{
    match said {
        Spec::Requires(condition) => add(items, Source::Condition(Word::Requires, condition)),
        Spec::Ensures(condition) => add(items, Source::Condition(Word::Ensures, condition)),
        Spec::Modifies(_) => Ok(()),
    }
}

fn specifications<'a>(items: &mut Items<'a>, said: &'a [Spec]) -> Result<(), AllocError>
    ensures { OnOk result (AddsItems items.old (flat_map spec.specification_items (map view.specification said.entry.now)) items.new) }
{
    for each in said {
        specification(items, each)?;
    }
    Ok(())
}

fn procedure<'a>(items: &mut Items<'a>, declared: &'a Proc) -> Result<(), AllocError>
    ensures { OnOk result (AddsItems items.old (spec.procedure_items (view.procedure declared.entry.now)) items.new) }
{
    specifications(items, &declared.specs)?;
    match &declared.body {
        Some(body) => block(items, &body.stmts),
        None => Ok(()),
    }
}

fn declaration<'a>(items: &mut Items<'a>, declared: &'a Decl) -> Result<(), AllocError>
    ensures { OnOk result (AddsItems items.old (spec.declaration_items (view.declaration declared.entry.now)) items.new) }
{
    match declared {
        Decl::Const(_) | Decl::Global(_) => Ok(()),
        Decl::Axiom(_, axiom) => add(items, Source::Axiom(axiom)),
        Decl::Procedure(declared) | Decl::Implementation(declared) => procedure(items, declared),
    }
}

/// The axioms, conditions and statements by their places.
fn items(alloc: Global, decls: &[Decl]) -> Result<Items<'_>, AllocError>
    ensures { IfOk result (λ found. (at : Span) → placed_at found at ≡ first_at at (spec.items (map view.declaration decls.now))) }
{
    let mut items = IndexMap::new(alloc);
    for each in decls {
        declaration(&mut items, each)?;
    }
    Ok(items)
}

/// Adds a declaration that is a constant or a global.
fn add_global<'a>(globals: &mut Vec<Source<'a>>, declared: &'a Decl) -> Result<(), AllocError>
    ensures { OnOk result (map item_of globals.new.items ≡ map item_of globals.old.items ++ spec.global_item (view.declaration declared.entry.now)) }
{
    match declared {
        Decl::Const(variable) => globals.push(Source::Variable(Word::Const, variable))?,
        Decl::Global(variable) => globals.push(Source::Variable(Word::Var, variable))?,
        Decl::Axiom(_, _) | Decl::Procedure(_) | Decl::Implementation(_) => {}
    }
    Ok(())
}

/// The constants and globals, in order of declaration.
fn globals(alloc: Global, decls: &[Decl]) -> Result<Vec<Source<'_>>, AllocError>
    ensures { IfOk result (λ found. map item_of found.items ≡ spec.global_items (map view.declaration decls.now)) }
{
    let mut globals = Vec::new(alloc);
    for each in decls {
        add_global(&mut globals, each)?;
    }
    Ok(globals)
}

/// Implementations by their names.
pub(crate) type Named<'a> = IndexMap<&'a [u8], &'a Proc>;

/// Adds an implementation, unless one has its name already.
fn add_named<'a>(found: &mut Named<'a>, procedure: &'a Proc) -> Result<(), AllocError>
    ensures { OnOk result (AddsNamed found.old (view.procedure procedure.entry.now ∷ []) found.new) }
{
    let name = procedure.name.text.bytes();
    if found.contains_key(name) {
        return Ok(());
    }
    found.insert(name, procedure)?;
    Ok(())
}

/// Adds a declaration that is an implementation.
fn add_implementation<'a>(found: &mut Named<'a>, declared: &'a Decl) -> Result<(), AllocError>
    ensures { OnOk result (AddsNamed found.old (implementations_of (view.declaration declared.entry.now ∷ [])) found.new) }
{
    match declared {
        Decl::Implementation(procedure) => add_named(found, procedure),
        Decl::Const(_) | Decl::Global(_) | Decl::Axiom(_, _) | Decl::Procedure(_) => Ok(()),
    }
}

/// The first implementation of each name.
fn implementations(alloc: Global, decls: &[Decl]) -> Result<Named<'_>, AllocError>
    ensures { IfOk result (HasImplementations (implementations_of (map view.declaration decls.now))) }
{
    let mut found = IndexMap::new(alloc);
    for each in decls {
        add_implementation(&mut found, each)?;
    }
    Ok(found)
}

/// The variables that a body declares.
fn declared_in(body: &Option<Body>) -> &[Vary]
    ensures { result.now ≡ body_locals (view.body_of body.now) }
{
    match body {
        Some(body) => &body.locals,
        None => &[],
    }
}

/// The variables of the body of the implementation of that name.
fn implemented<'a>(implementations: &Named<'a>, name: &[u8]) -> &'a [Vary]
    ensures { (is : List Procedure) → HasImplementations is implementations.now → result.now ≡ body_locals (option_and_then (λ i. i.body) (first_named name.now is)) }
{
    match implementations.get(name) {
        Some(implementation) => declared_in(&implementation.body),
        None => &[],
    }
}

/// The variables of the body of a procedure, its own or that of its implementation.
fn locals_of_body<'a>(implementations: &Named<'a>, procedure: &'a Proc) -> &'a [Vary]
    ensures { (is : List Procedure) → HasImplementations is implementations.now → result.now ≡ body_locals (option_or (view.procedure procedure.entry.now).body (option_and_then (λ i. i.body) (first_named procedure.entry.now.name.text is))) }
{
    match &procedure.body {
        Some(own) => &own.locals,
        None => implemented(implementations, procedure.name.text.bytes()),
    }
}

/// Adds a declaration that is a procedure, with the variables of its body.
fn add_heading<'a>(
    found: &mut Vec<Heading<'a>>,
    implementations: &Named<'a>,
    declared: &'a Decl,
) -> Result<(), AllocError>
    ensures { OnOk result ((ds : List Declaration) → HasImplementations (implementations_of ds) implementations.now → map heading_of found.new.items ≡ map heading_of found.old.items ++ map (spec.heading ds) (procedures_of (view.declaration declared.entry.now ∷ []))) }
{
    match declared {
        Decl::Procedure(procedure) => {
            found.push(Heading {
                procedure,
                locals: locals_of_body(implementations, procedure),
            })?;
            Ok(())
        }
        Decl::Const(_) | Decl::Global(_) | Decl::Axiom(_, _) | Decl::Implementation(_) => Ok(()),
    }
}

/// The procedures, in order, with the variables of their bodies.
fn procedures(alloc: Global, decls: &[Decl]) -> Result<Vec<Heading<'_>>, AllocError>
    ensures { IfOk result (λ found. map heading_of found.items ≡ spec.headings (map view.declaration decls.now)) }
{
    let implementations = implementations(alloc, decls)?;
    let mut found = Vec::new(alloc);
    for each in decls {
        add_heading(&mut found, &implementations, each)?;
    }
    Ok(found)
}

//! What conjunctions and disjunctions of facts say.

ghost use Rattle.std.specs.Prelude.{◌≡◌, ◌++◌, ◌<◌, IfOk, OnOk, map, drop, length};
ghost use Rattle.std.specs.List.{flat_map};
ghost use Rattle.std.specs.Option.{option_map};
ghost use Rattle.explained_proof.specs.BuiltExpressions.Members.{with_members};
ghost use Rattle.explained_proof.specs.BuiltExpressions.Views.{conjuncts};
ghost use Rattle.explained_proof.specs.RowExpressions.Options.{passes};
ghost use Rattle.explained_proof.specs.RowExpressions.Views as scopes;
ghost use Rattle.explained_proof.specs.FactExpressions.Conclusions as spec;
ghost use Rattle.explained_proof.specs.FactExpressions.EntryRows.{cover_all};
ghost use Rattle.explained_proof.specs.FactExpressions.Facts as known;
ghost use Rattle.explained_proof.specs.FactExpressions.Views as view;

use crate::built_expressions::{Members, add_either};
use crate::fact_expressions::conjunctions::Conjunction;
use crate::fact_expressions::disjunctions::{Disjunction, either_of_all};
use crate::fact_expressions::entry_rows::{add_told_rows, cover_all};
use crate::fact_expressions::splitting::split_first;
use crate::fact_expressions::trees::Tree;
use crate::row_expressions::Scope;
use lin_rows::Row;
use std::alloc::{AllocError, Global};

/// No predicates of an annotation are nested deeper.
const DEPTH: usize = 201;

/// A predicate as a fact.
fn fact_of<'a>(alloc: Global, tree: Tree<'a>) -> Result<Conjunction<'a>, AllocError>
    ensures { IfOk result (λ c. view.facts c ≡ known.gathered (view.tree tree.entry) known.no_facts) }
{
    let mut fact = Conjunction::new(alloc);
    fact.add(tree)?;
    Ok(fact)
}

/// The parts of a predicate that begins with `or`, each as a fact.
fn part_facts<'a>(alloc: Global, tree: Tree<'a>) -> Result<Vec<Conjunction<'a>>, AllocError>
    ensures { IfOk result (λ list. map view.facts list.items ≡ spec.part_facts (view.tree tree.entry)) }
{
    let mut parts = Vec::new(alloc);
    let mut left = tree.parts();
    while !left.is_empty() {
        let (part, rest) = split_first(left);
        parts.push(fact_of(alloc, part)?)?;
        left = rest;
    }
    Ok(parts)
}

/// The row that is all a fact says, if it is one.
fn row_alone<'a>(fact: &Conjunction<'a>) -> Option<&'a Row>
    ensures { option_map (λ r. r.now) result ≡ spec.row_alone (view.facts fact.now) }
{
    if fact.never || !fact.cases.is_empty() || fact.rows.len() != 1 {
        return None;
    }
    fact.rows.first().copied()
}

/// The predicate that is all a fact says, if it is one that begins with `or`.
fn cases_alone<'a>(fact: &Conjunction<'a>) -> Option<Tree<'a>>
    ensures { option_map view.tree result ≡ spec.cases_alone (view.facts fact.now) }
{
    if fact.never || !fact.rows.is_empty() || fact.cases.len() != 1 {
        return None;
    }
    fact.cases.first().copied()
}

/// Whether the fact is a row that covers all that a row does not.
fn covers(fact: &Conjunction<'_>, row: &Row) -> bool
    ensures { result ≡ passes (cover_all row.now) (spec.row_alone (view.facts fact.now)) }
{
    match row_alone(fact) {
        Some(other) => cover_all(row, other),
        None => false,
    }
}

/// Whether one of the facts covers, with a row, all that a row does not.
fn covers_rest(facts: &[Conjunction<'_>], row: &Row) -> bool
    ensures { result ≡ spec.covers_rest (map view.facts facts.now) row.now }
{
    for fact in facts {
        if covers(fact, row) {
            return true;
        }
    }
    false
}

/// Whether the first of the facts is a row, and one of them covers all that it does not.
fn first_is_covered(facts: &[Conjunction<'_>], place: usize) -> bool
    requires { place < length facts.now }
    ensures { result ≡ spec.first_is_covered (drop place (map view.facts facts.now)) }
{
    match row_alone(&facts[place]) {
        Some(row) => covers_rest(&facts[place..], row),
        None => false,
    }
}

/// Whether one of the facts holds anywhere, as two of them are rows that leave nothing between them.
fn are_all(facts: &[Conjunction<'_>]) -> bool
    ensures { result ≡ spec.are_all (map view.facts facts.now) }
{
    for place in 0..facts.len() {
        if first_is_covered(facts, place) {
            return true;
        }
    }
    false
}

/// Adds what a predicate that begins with `or` says: that one of its parts holds.
#[cycle(predicates)]
fn add_cases(
    alloc: Global,
    scope: &Scope<'_>,
    depth: usize,
    tree: Tree<'_>,
    members: &mut Members,
) -> Result<(), AllocError>
    ensures { OnOk result (conjuncts members.new ≡ with_members (conjuncts members.old) (spec.cases_said depth (scopes.scope scope.now) (view.tree tree.entry))) }
{
    if depth == 0 {
        return Ok(());
    }
    let parts = part_facts(alloc, tree)?;
    let either = either_of_all(alloc, parts)?;
    let said = said_within(alloc, scope, depth - 1, &either)?;
    members.add_all(said)
}

/// Adds what each of the predicates says.
#[cycle(predicates)]
fn add_all_cases(
    alloc: Global,
    scope: &Scope<'_>,
    depth: usize,
    trees: &[Tree<'_>],
    members: &mut Members,
) -> Result<(), AllocError>
    ensures { OnOk result (conjuncts members.new ≡ with_members (conjuncts members.old)
        (spec.all_of (map (spec.cases_said depth (scopes.scope scope.now)) (map view.tree trees.now)))) }
{
    for tree in trees {
        add_cases(alloc, scope, depth, *tree, members)?;
    }
    Ok(())
}

/// What a fact says.
#[cycle(predicates)]
fn fact_within(
    alloc: Global,
    scope: &Scope<'_>,
    depth: usize,
    fact: &Conjunction<'_>,
) -> Result<Members, AllocError>
    ensures { IfOk result (λ m. conjuncts m ≡ spec.facts_with (spec.cases_said depth (scopes.scope scope.now)) (scopes.scope scope.now) (view.facts fact.now)) }
{
    let mut members = Members::new(alloc);
    if fact.never {
        members.deny();
        return Ok(members);
    }
    add_told_rows(alloc, scope, &fact.rows, &mut members)?;
    add_all_cases(alloc, scope, depth, &fact.cases, &mut members)?;
    Ok(members)
}

/// Adds what each of the facts says.
#[cycle(predicates)]
fn add_facts(
    alloc: Global,
    scope: &Scope<'_>,
    depth: usize,
    facts: &[Conjunction<'_>],
    others: &mut Vec<Members>,
) -> Result<(), AllocError>
    ensures { OnOk result (map conjuncts others.new.items ≡ map conjuncts others.old.items ++
        map (spec.facts_with (spec.cases_said depth (scopes.scope scope.now)) (scopes.scope scope.now)) (map view.facts facts.now)) }
{
    for fact in facts {
        others.push(fact_within(alloc, scope, depth, fact)?)?;
    }
    Ok(())
}

/// Adds what is left of one fact: where that is a predicate that begins with `or`, its parts stand beside the others.
#[cycle(predicates)]
fn add_rest(
    alloc: Global,
    scope: &Scope<'_>,
    depth: usize,
    rest: &Conjunction<'_>,
    others: &mut Vec<Members>,
) -> Result<(), AllocError>
    ensures { OnOk result (map conjuncts others.new.items ≡ map conjuncts others.old.items ++
        map (spec.facts_with (spec.cases_said depth (scopes.scope scope.now)) (scopes.scope scope.now)) (spec.rest_parts (view.facts rest.now))) }
{
    match cases_alone(rest) {
        Some(tree) => {
            let parts = part_facts(alloc, tree)?;
            add_facts(alloc, scope, depth, &parts, others)
        }
        None => Ok(others.push(fact_within(alloc, scope, depth, rest)?)?),
    }
}

/// What is left of each of the facts says.
#[cycle(predicates)]
fn rests_said(
    alloc: Global,
    scope: &Scope<'_>,
    depth: usize,
    rests: &[Conjunction<'_>],
) -> Result<Vec<Members>, AllocError>
    ensures { IfOk result (λ list. map conjuncts list.items ≡
        map (spec.facts_with (spec.cases_said depth (scopes.scope scope.now)) (scopes.scope scope.now)) (flat_map spec.rest_parts (map view.facts rests.now))) }
{
    let mut others = Vec::new(alloc);
    for rest in rests {
        add_rest(alloc, scope, depth, rest, &mut others)?;
    }
    Ok(others)
}

/// What a disjunction says: what all share, and that one of what is left of each holds.
#[cycle(predicates)]
fn said_within(
    alloc: Global,
    scope: &Scope<'_>,
    depth: usize,
    either: &Disjunction<'_>,
) -> Result<Members, AllocError>
    ensures { IfOk result (λ m. conjuncts m ≡ spec.alternatives_with (spec.cases_said depth (scopes.scope scope.now)) (scopes.scope scope.now) (view.alternatives either.now)) }
{
    let mut members = fact_within(alloc, scope, depth, &either.shared)?;
    if are_all(&either.rests) {
        return Ok(members);
    }
    let others = rests_said(alloc, scope, depth, &either.rests)?;
    add_either(alloc, &mut members, others)?;
    Ok(members)
}

/// What a disjunction says: what all share, and that one of what is left of each holds. It recurses as deep as predicates are nested.
pub fn alternatives_said(
    alloc: Global,
    scope: &Scope<'_>,
    either: &Disjunction<'_>,
) -> Result<Members, AllocError>
    ensures { IfOk result (λ m. conjuncts m ≡ spec.alternatives_said (scopes.scope scope.now) (view.alternatives either.now)) }
{
    said_within(alloc, scope, DEPTH, either)
}

/// What a conjunction says. It recurses as deep as predicates are nested.
pub fn facts_said(
    alloc: Global,
    scope: &Scope<'_>,
    fact: &Conjunction<'_>,
) -> Result<Members, AllocError>
    ensures { IfOk result (λ m. conjuncts m ≡ spec.facts_said (scopes.scope scope.now) (view.facts fact.now)) }
{
    fact_within(alloc, scope, DEPTH, fact)
}

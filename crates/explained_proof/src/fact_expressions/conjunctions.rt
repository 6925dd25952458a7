//! Facts of a node: a conjunction of rows and of predicates with cases.

ghost use Rattle.std.specs.Prelude.{◌≡◌, ◌≢◌, ◌<◌, [], IfOk, OnOk, length, map, nat_lt, true};
ghost use Rattle.std.specs.List.{list_all};
ghost use Rattle.triple_rows.specs.Predicates.{formulas};
ghost use Rattle.explained_proof.specs.FactExpressions.Facts as spec;
ghost use Rattle.explained_proof.specs.FactExpressions.Trees.{SpellsSome};
ghost use Rattle.explained_proof.specs.FactExpressions.Views as view;

use crate::fact_expressions::equality::same_terms;
use crate::fact_expressions::splitting::split_first;
use crate::fact_expressions::trees::Tree;
use lin_rows::Row;
use std::alloc::{AllocError, Global};
use triple_rows::PredNode;

/// A conjunction: rows, of which no two have equal terms, and predicates that begin with `or`.
#[derive(Drop)]
pub struct Conjunction<'a> {
    pub(crate) rows: Vec<&'a Row>,
    pub(crate) cases: Vec<Tree<'a>>,
    /// Whether false is among its parts.
    pub(crate) never: bool,
}

/// The row with the lesser bound, the second of equal ones.
fn lesser<'a>(first: &'a Row, second: &'a Row) -> &'a Row
    ensures { result.now ≡ spec.lesser first.now second.now }
{
    if first.bound() < second.bound() {
        first
    } else {
        second
    }
}

/// Whether the second row has the terms of the first, and a bound that is no larger.
fn says(row: &Row, other: &Row) -> bool
    ensures { result ≡ spec.says row.now other.now }
{
    same_terms(other, row) && other.bound() <= row.bound()
}

/// Whether the second row has the terms of the first, and its bound.
fn is_equal(row: &Row, other: &Row) -> bool
    ensures { result ≡ spec.is_equal row.now other.now }
{
    same_terms(other, row) && other.bound() == row.bound()
}

/// Whether one of the rows says this row, or more.
fn says_row(rows: &[&Row], row: &Row) -> bool
    ensures { result ≡ spec.says_row (view.rows rows.now) row.now }
{
    for other in rows {
        if says(row, other) {
            return true;
        }
    }
    false
}

/// Whether one of the rows is this row.
pub(crate) fn is_row(rows: &[&Row], row: &Row) -> bool
    ensures { result ≡ spec.is_row (view.rows rows.now) row.now }
{
    for other in rows {
        if is_equal(row, other) {
            return true;
        }
    }
    false
}

/// Whether the predicate with cases is one of these.
pub(crate) fn has_cases(cases: &[Tree<'_>], tree: Tree<'_>) -> bool
    ensures { result ≡ spec.has_cases (map view.tree cases.now) (view.tree tree.entry) }
{
    for other in cases {
        if other.is_same(tree) {
            return true;
        }
    }
    false
}

/// Whether each of the rows is said by one of others.
fn say_all(rows: &[&Row], others: &[&Row]) -> bool
    ensures { result ≡ list_all (spec.says_row (view.rows rows.now)) (view.rows others.now) }
{
    for other in others {
        if !says_row(rows, other) {
            return false;
        }
    }
    true
}

/// Whether each of the predicates with cases is one of others.
fn have_all(cases: &[Tree<'_>], others: &[Tree<'_>]) -> bool
    ensures { result ≡ list_all (spec.has_cases (map view.tree cases.now)) (map view.tree others.now) }
{
    for other in others {
        if !has_cases(cases, *other) {
            return false;
        }
    }
    true
}

/// Adds a row. Of two with equal terms that with the least bound stays, where the first stands.
pub(crate) fn add_row<'a>(rows: &mut Vec<&'a Row>, row: &'a Row) -> Result<(), AllocError>
    ensures { OnOk result (view.rows rows.new.items ≡ spec.with_row row.entry.now (view.rows rows.old.items)) }
{
    for number in 0..rows.len() {
        let other = rows[number];
        if same_terms(other, row) {
            rows[number] = lesser(row, other);
            return Ok(());
        }
    }
    Ok(rows.push(row)?)
}

impl<'a> Conjunction<'a> {
    /// True.
    pub fn new(alloc: Global) -> Self
        ensures { view.facts result ≡ spec.no_facts }
    {
        Conjunction {
            rows: Vec::new(alloc),
            cases: Vec::new(alloc),
            never: false,
        }
    }

    /// Adds false.
    pub fn deny(&mut self)
        ensures { view.facts self.new ≡ record (view.facts self.old) { never = true } }
    {
        self.never = true;
    }

    /// Adds a predicate with cases, unless it stands here.
    fn add_cases(&mut self, tree: Tree<'a>) -> Result<(), AllocError>
        ensures { OnOk result (view.facts self.new ≡ record (view.facts self.old) { cases = spec.with_cases (view.tree tree.entry) (view.facts self.old).cases }) }
    {
        if has_cases(&self.cases, tree) {
            return Ok(());
        }
        Ok(self.cases.push(tree)?)
    }

    /// Adds the first predicate of the list as a part, and answers what is left: of an `and` its parts, as they are parts here.
    fn add_first(&mut self, nodes: &'a [PredNode]) -> Result<&'a [PredNode], AllocError>
        requires some { nodes.now ≢ [] }
        requires spelled { SpellsSome nodes.now }
        ensures value { IfOk result (λ rest. spec.facts_from (formulas rest.now) (view.facts self.new) ≡ spec.facts_from (formulas nodes.entry.now) (view.facts self.old)) }
        ensures spelled { IfOk result (λ rest. SpellsSome rest.now) }
        ensures shorter { IfOk result (λ rest. length rest.now < length nodes.entry.now) }
    {
        match nodes.split_first() {
            Some((PredNode::Truth(value), rest)) => {
                if !*value {
                    self.never = true;
                }
                Ok(rest)
            }
            Some((PredNode::Atom(row), rest)) => {
                add_row(&mut self.rows, row)?;
                Ok(rest)
            }
            Some((PredNode::And(_), rest)) => Ok(rest),
            _ => {
                let (tree, rest) = split_first(nodes);
                self.add_cases(tree)?;
                Ok(rest)
            }
        }
    }

    /// Adds the predicates of a list.
    fn add_nodes(&mut self, nodes: &'a [PredNode]) -> Result<(), AllocError>
        requires { SpellsSome nodes.now }
        ensures { OnOk result (view.facts self.new ≡ spec.facts_from (formulas nodes.entry.now) (view.facts self.old)) }
    {
        let mut rest = nodes;
        while !rest.is_empty() {
            rest = self.add_first(rest)?;
        }
        Ok(())
    }

    /// Adds a predicate.
    pub fn add(&mut self, tree: Tree<'a>) -> Result<(), AllocError>
        ensures { OnOk result (view.facts self.new ≡ spec.gathered (view.tree tree.entry) (view.facts self.old)) }
    {
        self.add_nodes(tree.nodes())
    }

    /// Whether each part of the other one is said here, too.
    pub(crate) fn implies(&self, other: &Conjunction<'_>) -> bool
        ensures { result ≡ spec.implies (view.facts self.now) (view.facts other.now) }
    {
        if self.never {
            return true;
        }
        say_all(&self.rows, &other.rows) && have_all(&self.cases, &other.cases) && !other.never
    }

    /// The rows.
    pub fn rows(&self) -> &[&'a Row]
        ensures { view.rows result.now ≡ (view.facts self.now).rows }
    {
        self.rows.as_slice()
    }

    /// Whether there are predicates with cases.
    pub fn has_any_cases(&self) -> bool
        ensures { result ≡ nat_lt 0 (length (view.facts self.now).cases) }
    {
        !self.cases.is_empty()
    }
}

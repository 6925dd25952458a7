//! The clauses of a procedure at a place.

ghost use Rattle.std.specs.Prelude.{◌≡◌, ◌∷◌, [], IfOk, map};
ghost use Rattle.std.specs.List.{list_any};
ghost use Rattle.boogie_tree.specs.View as tree;
ghost use Rattle.explained_proof.specs.BuiltExpressions.Building.{operation};
ghost use Rattle.explained_proof.specs.BuiltExpressions.Members.{joined};
ghost use Rattle.explained_proof.specs.BuiltExpressions.Views.{conjuncts};
ghost use Rattle.explained_proof.specs.RowExpressions.Views as scopes;
ghost use Rattle.explained_proof.specs.FactExpressions.Views as seen;
ghost use Rattle.explained_proof.specs.Clauses as spec;
ghost use Rattle.explained_proof.specs.Known.{known_at};
ghost use Rattle.explained_proof.specs.Ties.Views as view;

use crate::built_expressions::{Members, old, operation};
use crate::fact_expressions::{Conjunction, alternatives_said, either_of_all, facts_said};
use crate::knowledge::Knowledge;
use crate::row_expressions::{Position, Scope};
use boogie_tree::{Column, Expr, Op, VarInfo};
use lin_rows::Row;
use std::alloc::{AllocError, Global};

/// An entry node of a procedure, and whether what it knows is the premise of what holds behind it.
#[derive(Clone, Copy)]
pub(crate) struct Entered {
    pub(crate) node: usize,
    pub(crate) is_premise: bool,
}

/// A procedure whose clauses are made: its columns, how many of its locals are parameters and results, and its entry nodes.
#[derive(Drop)]
pub(crate) struct Procedure<'a> {
    pub(crate) knowledge: &'a Knowledge<'a>,
    pub(crate) frame: &'a [(Column, VarInfo)],
    pub(crate) params: u32,
    pub(crate) results: u32,
    pub(crate) entries: Vec<Entered>,
}

/// What is known at a node.
fn facts_at<'a>(
    alloc: Global,
    knowledge: &'a Knowledge<'_>,
    node: usize,
) -> Result<Conjunction<'a>, AllocError>
    ensures { IfOk result (λ c. seen.facts c ≡ known_at (view.known knowledge.entry.now) node) }
{
    let mut facts = Conjunction::new(alloc);
    for number in knowledge.preds(node) {
        knowledge.add_predicate(*number, &mut facts)?;
    }
    Ok(facts)
}

/// What is known at each of the nodes.
fn facts_of<'a>(
    alloc: Global,
    knowledge: &'a Knowledge<'_>,
    nodes: &[usize],
) -> Result<Vec<Conjunction<'a>>, AllocError>
    ensures { IfOk result (λ list. map seen.facts list.items ≡ map (known_at (view.known knowledge.entry.now)) nodes.now) }
{
    let mut list = Vec::with_capacity(alloc, nodes.len())?;
    for node in nodes {
        list.push(facts_at(alloc, knowledge, *node)?)?;
    }
    Ok(list)
}

/// What the nodes know together: that it is known at one of them.
fn known_at_one(
    alloc: Global,
    knowledge: &Knowledge<'_>,
    scope: &Scope<'_>,
    nodes: &[usize],
) -> Result<Members, AllocError>
    ensures { IfOk result (λ m. conjuncts m ≡ spec.known_at_one (view.known knowledge.now) (scopes.scope scope.now) nodes.now) }
{
    let facts = facts_of(alloc, knowledge, nodes)?;
    let either = either_of_all(alloc, facts)?;
    alternatives_said(alloc, scope, &either)
}

/// Whether the row names a global that may change.
fn row_names_changing(scope: &Scope<'_>, row: &Row) -> bool
    ensures { result ≡ spec.row_names_changing (scopes.scope scope.now) row.now }
{
    for (column, _) in row.terms() {
        if scope.may_change(*column) {
            return true;
        }
    }
    false
}

/// Whether one of the rows names a global that may change.
fn some_names_changing(scope: &Scope<'_>, rows: &[&Row]) -> bool
    ensures { result ≡ list_any (spec.row_names_changing (scopes.scope scope.now)) (seen.rows rows.now) }
{
    for row in rows {
        if row_names_changing(scope, row) {
            return true;
        }
    }
    false
}

/// Whether the facts name a global that may change; those with cases may.
fn names_changing(scope: &Scope<'_>, facts: &Conjunction<'_>) -> bool
    ensures { result ≡ spec.names_changing (scopes.scope scope.now) (seen.facts facts.now) }
{
    some_names_changing(scope, facts.rows()) || facts.has_any_cases()
}

/// The premise, in `old` where it names a global that may change.
fn premise_said(
    alloc: Global,
    scope: &Scope<'_>,
    facts: &Conjunction<'_>,
    said: Members,
) -> Result<Expr, AllocError>
    ensures { IfOk result (λ e. tree.expression e ≡ spec.premise_said (scopes.scope scope.now) (seen.facts facts.now) (conjuncts said)) }
{
    let joined = said.joined(alloc)?;
    if names_changing(scope, facts) {
        old(alloc, joined)
    } else {
        Ok(joined)
    }
}

/// The conclusion under a premise that is neither true nor false.
fn implied(
    alloc: Global,
    scope: &Scope<'_>,
    facts: &Conjunction<'_>,
    premise: Members,
    conclusion: Members,
) -> Result<Vec<Expr>, AllocError>
    ensures { IfOk result (λ list. map tree.expression list.items ≡
        operation Op.Implies (spec.premise_said (scopes.scope scope.now) (seen.facts facts.now) (conjuncts premise)) (joined (conjuncts conclusion)) ∷ []) }
{
    let premise = premise_said(alloc, scope, facts, premise)?;
    let conclusion = conclusion.joined(alloc)?;
    Ok(vec![in alloc; operation(alloc, Op::Implies, premise, conclusion)?]?)
}

/// The conclusion under the premise that facts hold: nothing where that is false.
fn under_facts(
    alloc: Global,
    scope: &Scope<'_>,
    facts: &Conjunction<'_>,
    conclusion: Members,
) -> Result<Vec<Expr>, AllocError>
    ensures { IfOk result (λ list. map tree.expression list.items ≡ spec.under_facts (scopes.scope scope.now) (seen.facts facts.now) (conjuncts conclusion)) }
{
    let premise = facts_said(alloc, scope, facts)?;
    if premise.never {
        return Ok(Vec::new(alloc));
    }
    if premise.is_true() {
        return conclusion.into_clauses(alloc);
    }
    implied(alloc, scope, facts, premise, conclusion)
}

/// The numbers of the entry nodes.
fn nodes_of(alloc: Global, entries: &[Entered]) -> Result<Vec<usize>, AllocError>
    ensures { IfOk result (λ list. list.items ≡ map (λ e. e.node) entries.now) }
{
    let mut nodes = Vec::with_capacity(alloc, entries.len())?;
    for entered in entries {
        nodes.push(entered.node)?;
    }
    Ok(nodes)
}

impl<'a> Procedure<'a> {
    /// The columns where a clause stands.
    fn scope(&self, position: Position, premise: bool) -> Scope<'a>
        ensures { scopes.scope result ≡ spec.scope (view.procedure self.now) position premise }
    {
        Scope {
            frame: self.frame,
            params: self.params,
            results: self.results,
            position,
            premise,
        }
    }

    /// What is required where the procedure is called.
    pub(crate) fn required(&self, alloc: Global) -> Result<Vec<Expr>, AllocError>
        ensures { IfOk result (λ list. map tree.expression list.items ≡ spec.required (view.procedure self.now)) }
    {
        let nodes = nodes_of(alloc, &self.entries)?;
        let scope = self.scope(Position::Requires, false);
        let known = known_at_one(alloc, self.knowledge, &scope, &nodes)?;
        known.into_clauses(alloc)
    }

    /// The conclusion in frames that were entered at a node.
    fn clauses_for(
        &self,
        alloc: Global,
        position: Position,
        entered: Entered,
        conclusion: Members,
    ) -> Result<Vec<Expr>, AllocError>
        ensures { IfOk result (λ list. map tree.expression list.items ≡ spec.clauses_for (view.procedure self.now) position entered (conjuncts conclusion)) }
    {
        if conclusion.is_true() {
            return Ok(Vec::new(alloc));
        }
        if !entered.is_premise {
            return conclusion.into_clauses(alloc);
        }
        let scope = self.scope(position, true);
        let facts = facts_at(alloc, self.knowledge, entered.node)?;
        under_facts(alloc, &scope, &facts, conclusion)
    }

    /// What holds at a place in frames that were entered at a node.
    fn holding_for(
        &self,
        alloc: Global,
        position: Position,
        place: u64,
        entered: Entered,
    ) -> Result<Vec<Expr>, AllocError>
        ensures { IfOk result (λ list. map tree.expression list.items ≡ spec.holding_for (view.procedure self.now) position place entered) }
    {
        let scope = self.scope(position, false);
        let nodes = self.knowledge.standing_at(place, entered.node);
        let conclusion = known_at_one(alloc, self.knowledge, &scope, nodes)?;
        self.clauses_for(alloc, position, entered, conclusion)
    }

    /// What holds at a place.
    pub(crate) fn holding(
        &self,
        alloc: Global,
        position: Position,
        place: u64,
    ) -> Result<Vec<Expr>, AllocError>
        ensures { IfOk result (λ list. map tree.expression list.items ≡ spec.holding (view.procedure self.now) position place) }
    {
        let mut clauses = Vec::new(alloc);
        for entered in &self.entries {
            let mut more = self.holding_for(alloc, position, place, *entered)?;
            clauses.append(&mut more)?;
        }
        Ok(clauses)
    }
}

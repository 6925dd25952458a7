//! Members of conjunctions, as expressions.

ghost use Rattle.std.specs.Prelude.{◌≡◌, List, [], ◌∷◌, ◌++◌, Some, IfOk, OnOk, map};
ghost use Rattle.std.specs.Option.{option_map};
ghost use Rattle.boogie_tree.specs.View as tree;
ghost use Rattle.explained_proof.specs.BuiltExpressions.Members as spec;
ghost use Rattle.explained_proof.specs.BuiltExpressions.Views as view;

use crate::built_expressions::building::{chained, truth};
use boogie_tree::{Expr, Op};
use std::alloc::{AllocError, Global};

/// A conjunction of expressions. Where it is never true it has no members.
#[derive(Drop)]
pub struct Members {
    pub never: bool,
    pub said: Vec<Expr>,
}

impl Members {
    /// True.
    pub fn new(alloc: Global) -> Self
        ensures { view.conjuncts result ≡ spec.always }
    {
        Members {
            never: false,
            said: Vec::new(alloc),
        }
    }

    /// Adds an expression.
    pub fn add(&mut self, part: Expr) -> Result<(), AllocError>
        ensures { OnOk result (view.conjuncts self.new ≡ spec.with_members (view.conjuncts self.old) (spec.just (tree.expression part))) }
    {
        if !self.never {
            self.said.push(part)?;
        }
        Ok(())
    }

    /// Adds false.
    pub fn deny(&mut self)
        ensures { view.conjuncts self.new ≡ spec.denied }
    {
        self.never = true;
        self.said.clear();
    }

    /// Whether it is true.
    pub fn is_true(&self) -> bool
        ensures { result ≡ spec.is_always (view.conjuncts self.now) }
    {
        !self.never && self.said.is_empty()
    }

    /// Adds all members of another one.
    pub fn add_all(&mut self, others: Members) -> Result<(), AllocError>
        ensures { OnOk result (view.conjuncts self.new ≡ spec.with_members (view.conjuncts self.old) (view.conjuncts others)) }
    {
        let Members { never, said } = others;
        if never {
            self.deny();
            return Ok(());
        }
        for part in said {
            self.add(part)?;
        }
        Ok(())
    }

    /// The members in one expression.
    pub fn joined(self, alloc: Global) -> Result<Expr, AllocError>
        ensures { IfOk result (λ e. tree.expression e ≡ spec.joined (view.conjuncts self)) }
    {
        let Members { never, said } = self;
        if never {
            return Ok(truth(false));
        }
        match chained(alloc, Op::And, said)? {
            Some(joined) => Ok(joined),
            None => Ok(truth(true)),
        }
    }

    /// The members as clauses of their own.
    pub fn into_clauses(self, alloc: Global) -> Result<Vec<Expr>, AllocError>
        ensures { IfOk result (λ es. map tree.expression es.items ≡ spec.clauses_of (view.conjuncts self)) }
    {
        let Members { never, said } = self;
        if never {
            return Ok(vec![in alloc; truth(false)]?);
        }
        Ok(said)
    }
}

/// Adds what a conjunction says as one of several, unless it is never true.
fn push_alternative(alloc: Global, other: Members, said: &mut Vec<Expr>) -> Result<(), AllocError>
    ensures { OnOk result (map tree.expression said.new.items ≡ map tree.expression said.old.items ++ spec.may_be (view.conjuncts other ∷ [])) }
{
    if other.never {
        return Ok(());
    }
    Ok(said.push(other.joined(alloc)?)?)
}

/// What several conjunctions say, but for those that are never true; none where one is always true.
fn alternatives(alloc: Global, others: Vec<Members>) -> Result<Option<Vec<Expr>>, AllocError>
    ensures { IfOk result (λ o. spec.one_of (map view.conjuncts others.items) ≡ spec.either_of (option_map (λ v. map tree.expression v.items) o)) }
{
    let mut said = Vec::new(alloc);
    for other in others {
        if other.is_true() {
            return Ok(None);
        }
        push_alternative(alloc, other, &mut said)?;
    }
    Ok(Some(said))
}

/// Adds that one of several expressions is true; false where there are none.
fn add_one_of(alloc: Global, members: &mut Members, said: Vec<Expr>) -> Result<(), AllocError>
    ensures { OnOk result (view.conjuncts members.new ≡
        spec.with_members (view.conjuncts members.old) (spec.either_of (Some (map tree.expression said.items)))) }
{
    match chained(alloc, Op::Or, said)? {
        Some(either) => members.add(either),
        None => {
            members.deny();
            Ok(())
        }
    }
}

/// Adds to the members that one of several conjunctions is true: nothing where one is always true.
pub fn add_either(
    alloc: Global,
    members: &mut Members,
    others: Vec<Members>,
) -> Result<(), AllocError>
    ensures { OnOk result (view.conjuncts members.new ≡ spec.with_members (view.conjuncts members.old) (spec.one_of (map view.conjuncts others.items))) }
{
    match alternatives(alloc, others)? {
        Some(said) => add_one_of(alloc, members, said),
        None => Ok(()),
    }
}

//! Facts of several nodes: what they share, and which of them one has to say.

ghost use Rattle.std.specs.Prelude.{◌≡◌, ◌∷◌, ◌++◌, [], cond, IfOk, OnOk, map, filter, not};
ghost use Rattle.std.specs.List.{list_all};
ghost use Rattle.explained_proof.specs.FactExpressions.Disjunctions as spec;
ghost use Rattle.explained_proof.specs.FactExpressions.Facts as known;
ghost use Rattle.explained_proof.specs.FactExpressions.Views as view;

use crate::fact_expressions::conjunctions::{Conjunction, has_cases, is_row};
use crate::fact_expressions::trees::Tree;
use lin_rows::Row;
use std::alloc::{AllocError, Global};

/// A disjunction of conjunctions: what all share, and what is left of each. Where none is left it is false; where one is left, that is all shared.
#[derive(Drop)]
pub struct Disjunction<'a> {
    pub(crate) shared: Conjunction<'a>,
    pub(crate) rests: Vec<Conjunction<'a>>,
}

/// Whether the fact of that number has to be said no more beside the other one: it implies that, and of equal ones the first stays.
fn is_covered_by(
    other: usize,
    there: &Conjunction<'_>,
    number: usize,
    here: &Conjunction<'_>,
) -> bool
    ensures { result ≡ spec.is_covered_by other (view.facts there.now) number (view.facts here.now) }
{
    if other == number || there.never || !here.implies(there) {
        return false;
    }
    other < number || !there.implies(here)
}

/// Whether the fact of that number is left out: it is false, or it implies another that stays, of equal ones the first.
fn is_left_out(facts: &[Conjunction<'_>], number: usize, here: &Conjunction<'_>) -> bool
    ensures { result ≡ spec.is_left_out (map view.facts facts.now) number (view.facts here.now) }
{
    if here.never {
        return true;
    }
    for (other, there) in facts.iter().enumerate() {
        if is_covered_by(other, there, number, here) {
            return true;
        }
    }
    false
}

/// Which of the facts are left out.
fn marks(alloc: Global, facts: &[Conjunction<'_>]) -> Result<Vec<bool>, AllocError>
    ensures { IfOk result (λ list. list.items ≡ spec.marks_from (map view.facts facts.now) 0 (map view.facts facts.now)) }
{
    let mut list = Vec::with_capacity(alloc, facts.len())?;
    for (number, fact) in facts.iter().enumerate() {
        list.push(is_left_out(facts, number, fact))?;
    }
    Ok(list)
}

/// The facts that are not marked.
fn unmarked<'a>(
    alloc: Global,
    marks: &[bool],
    facts: Vec<Conjunction<'a>>,
) -> Result<Vec<Conjunction<'a>>, AllocError>
    ensures { IfOk result (λ list. map view.facts list.items ≡ spec.unmarked marks.now (map view.facts facts.entry.items)) }
{
    let mut list = Vec::new(alloc);
    let mut number: usize = 0;
    for fact in facts {
        if let Some(false) = marks.get(number) {
            list.push(fact)?;
        }
        number = number.saturating_add(1);
    }
    Ok(list)
}

/// The facts that are not left out.
fn kept<'a>(alloc: Global, facts: Vec<Conjunction<'a>>) -> Result<Vec<Conjunction<'a>>, AllocError>
    ensures { IfOk result (λ list. map view.facts list.items ≡ spec.kept (map view.facts facts.entry.items)) }
{
    let marks = marks(alloc, &facts)?;
    unmarked(alloc, &marks, facts)
}

/// Whether each of the facts has the row.
fn all_have_row(facts: &[Conjunction<'_>], row: &Row) -> bool
    ensures { result ≡ list_all (λ d. known.is_row d.rows row.now) (map view.facts facts.now) }
{
    for fact in facts {
        if !is_row(&fact.rows, row) {
            return false;
        }
    }
    true
}

/// Whether each of the facts has the predicate with cases.
fn all_have_cases(facts: &[Conjunction<'_>], tree: Tree<'_>) -> bool
    ensures { result ≡ list_all (λ d. known.has_cases d.cases (view.tree tree.entry)) (map view.facts facts.now) }
{
    for fact in facts {
        if !has_cases(&fact.cases, tree) {
            return false;
        }
    }
    true
}

/// Adds a row, if it is one of these.
fn push_row_if<'a>(here: bool, row: &'a Row, list: &mut Vec<&'a Row>) -> Result<(), AllocError>
    ensures { OnOk result (view.rows list.new.items ≡ view.rows list.old.items ++ cond here (row.entry.now ∷ []) []) }
{
    if here {
        list.push(row)?;
    }
    Ok(())
}

/// Adds a predicate with cases, if it is one of these.
fn push_tree_if<'a>(here: bool, tree: Tree<'a>, list: &mut Vec<Tree<'a>>) -> Result<(), AllocError>
    ensures { OnOk result (map view.tree list.new.items ≡ map view.tree list.old.items ++ cond here (view.tree tree.entry ∷ []) []) }
{
    if here {
        list.push(tree)?;
    }
    Ok(())
}

/// The rows that each of the facts has.
fn shared_rows<'a>(
    alloc: Global,
    rows: &[&'a Row],
    facts: &[Conjunction<'_>],
) -> Result<Vec<&'a Row>, AllocError>
    ensures { IfOk result (λ list. view.rows list.items ≡
        filter (λ r. list_all (λ d. known.is_row d.rows r) (map view.facts facts.now)) (view.rows rows.now)) }
{
    let mut list = Vec::new(alloc);
    for row in rows {
        push_row_if(all_have_row(facts, row), row, &mut list)?;
    }
    Ok(list)
}

/// The predicates with cases that each of the facts has.
fn shared_cases<'a>(
    alloc: Global,
    cases: &[Tree<'a>],
    facts: &[Conjunction<'_>],
) -> Result<Vec<Tree<'a>>, AllocError>
    ensures { IfOk result (λ list. map view.tree list.items ≡
        filter (λ f. list_all (λ d. known.has_cases d.cases f) (map view.facts facts.now)) (map view.tree cases.now)) }
{
    let mut list = Vec::new(alloc);
    for tree in cases {
        push_tree_if(all_have_cases(facts, *tree), *tree, &mut list)?;
    }
    Ok(list)
}

/// The parts of the first of the facts that each of the others has, too.
fn shared_by<'a>(alloc: Global, facts: &[Conjunction<'a>]) -> Result<Conjunction<'a>, AllocError>
    ensures { IfOk result (λ c. view.facts c ≡ spec.shared_by (map view.facts facts.now)) }
{
    let Some(first) = facts.first() else {
        return Ok(Conjunction::new(alloc));
    };
    let rows = shared_rows(alloc, &first.rows, facts)?;
    let cases = shared_cases(alloc, &first.cases, facts)?;
    Ok(Conjunction {
        rows,
        cases,
        never: false,
    })
}

/// The rows that are not among those.
fn other_rows<'a>(
    alloc: Global,
    rows: &[&'a Row],
    shared: &[&Row],
) -> Result<Vec<&'a Row>, AllocError>
    ensures { IfOk result (λ list. view.rows list.items ≡ filter (λ r. not (known.is_row (view.rows shared.now) r)) (view.rows rows.now)) }
{
    let mut list = Vec::new(alloc);
    for row in rows {
        push_row_if(!is_row(shared, row), row, &mut list)?;
    }
    Ok(list)
}

/// The predicates with cases that are not among those.
fn other_cases<'a>(
    alloc: Global,
    cases: &[Tree<'a>],
    shared: &[Tree<'_>],
) -> Result<Vec<Tree<'a>>, AllocError>
    ensures { IfOk result (λ list. map view.tree list.items ≡ filter (λ f. not (known.has_cases (map view.tree shared.now) f)) (map view.tree cases.now)) }
{
    let mut list = Vec::new(alloc);
    for tree in cases {
        push_tree_if(!has_cases(shared, *tree), *tree, &mut list)?;
    }
    Ok(list)
}

/// The parts of a fact that are not among those.
fn less<'a>(
    alloc: Global,
    shared: &Conjunction<'a>,
    fact: &Conjunction<'a>,
) -> Result<Conjunction<'a>, AllocError>
    ensures { IfOk result (λ c. view.facts c ≡ spec.less (view.facts shared.now) (view.facts fact.now)) }
{
    let rows = other_rows(alloc, &fact.rows, &shared.rows)?;
    let cases = other_cases(alloc, &fact.cases, &shared.cases)?;
    Ok(Conjunction {
        rows,
        cases,
        never: false,
    })
}

/// What is left of each of the facts.
fn rests<'a>(
    alloc: Global,
    shared: &Conjunction<'a>,
    facts: &[Conjunction<'a>],
) -> Result<Vec<Conjunction<'a>>, AllocError>
    ensures { IfOk result (λ list. map view.facts list.items ≡ map (spec.less (view.facts shared.now)) (map view.facts facts.now)) }
{
    let mut list = Vec::new(alloc);
    for fact in facts {
        list.push(less(alloc, shared, fact)?)?;
    }
    Ok(list)
}

/// The disjunction of facts, without those that imply others.
pub fn either_of_all<'a>(
    alloc: Global,
    facts: Vec<Conjunction<'a>>,
) -> Result<Disjunction<'a>, AllocError>
    ensures { IfOk result (λ d. view.alternatives d ≡ spec.either_of_all (map view.facts facts.entry.items)) }
{
    let kept = kept(alloc, facts)?;
    let shared = shared_by(alloc, &kept)?;
    let rests = rests(alloc, &shared, &kept)?;
    Ok(Disjunction { shared, rests })
}

//! Rows as members of conjunctions: by cases of their boolean columns.

ghost use mathlib.Core.Bool.{beq};
ghost use Rattle.std.specs.Prelude.{◌≡◌, ◌∷◌, ◌++◌, [], cond, IfOk, OnOk, map, length};
ghost use Rattle.std.specs.List.{AllByRecursion};
ghost use Rattle.std.specs.Option.{option_map, option_and_then};
ghost use Rattle.math_facts.specs.Fits.{Fits};
ghost use Rattle.lin_rows.specs.Rows.{IsCoefficient};
ghost use Rattle.boogie_tree.specs.View as tree;
ghost use Rattle.explained_proof.specs.BuiltExpressions.Members.{with_members};
ghost use Rattle.explained_proof.specs.BuiltExpressions.Views.{conjuncts};
ghost use Rattle.explained_proof.specs.RowExpressions.Cases as by;
ghost use Rattle.explained_proof.specs.RowExpressions.Rows as spec;
ghost use Rattle.explained_proof.specs.RowExpressions.Scopes.{is_truth};
ghost use Rattle.explained_proof.specs.RowExpressions.Views as view;

use crate::built_expressions::Members;
use crate::row_expressions::cases::{cases, conditions, excluded, implied, rest};
use crate::row_expressions::scopes::Scope;
use crate::row_expressions::sums::sum_said;
use boogie_tree::Expr;
use lin_rows::Row;
use std::alloc::{AllocError, Global};

/// So many boolean columns are told apart by cases at most.
const CASES: usize = 3;

/// The terms of a row, its boolean columns apart where they are few.
#[derive(Drop)]
struct Split {
    numbers: Vec<(u32, i128)>,
    truths: Vec<(u32, i128)>,
}

/// Whether the column is boolean, or whether it is not.
fn is_kind(scope: &Scope<'_>, truths: bool, column: u32) -> bool
    ensures { result ≡ beq truths (is_truth (view.scope scope.now) column) }
{
    scope.is_truth(column) == truths
}

/// Adds a term, if it is one of these.
fn push_if(here: bool, term: &(u32, i128), list: &mut Vec<(u32, i128)>) -> Result<(), AllocError>
    ensures { OnOk result (list.new.items ≡ list.old.items ++ cond here (term.now ∷ []) []) }
{
    if here {
        list.push(*term)?;
    }
    Ok(())
}

/// The terms of boolean columns, or of the others.
fn terms_of(
    alloc: Global,
    scope: &Scope<'_>,
    truths: bool,
    terms: &[(u32, i128)],
) -> Result<Vec<(u32, i128)>, AllocError>
    requires { AllByRecursion IsCoefficient terms.now }
    ensures value { IfOk result (λ ts. ts.items ≡ spec.terms_of (view.scope scope.now) truths terms.now) }
    ensures valid { IfOk result (λ ts. AllByRecursion IsCoefficient ts.items) }
{
    let mut list = Vec::new(alloc);
    for term in terms {
        push_if(is_kind(scope, truths, term.0), term, &mut list)?;
    }
    Ok(list)
}

/// The terms of a row, its boolean columns apart where they are few.
fn set_apart(alloc: Global, scope: &Scope<'_>, terms: &[(u32, i128)]) -> Result<Split, AllocError>
    requires { AllByRecursion IsCoefficient terms.now }
    ensures value { IfOk result (λ t. view.split t ≡ spec.apart (view.scope scope.now) terms.now) }
    ensures valid { IfOk result (λ t. AllByRecursion IsCoefficient t.numbers.items) }
{
    let truths = terms_of(alloc, scope, true, terms)?;
    if truths.len() > CASES {
        return Ok(Split {
            numbers: Vec::from_slice(alloc, terms)?,
            truths: Vec::new(alloc),
        });
    }
    let numbers = terms_of(alloc, scope, false, terms)?;
    Ok(Split { numbers, truths })
}

/// Whether a row, an equality or an inequality, is true where its whole numbers are none.
fn stands(equal: bool, rest: i128) -> bool
    ensures { result ≡ spec.stands equal rest }
{
    if equal { rest == 0 } else { rest >= 0 }
}

/// Whether the row is so in a case.
fn is_so(split: &Split, equal: bool, bound: i128, case: &Vec<bool>, value: bool) -> bool
    ensures { result ≡ spec.is_equal_to value (option_map (spec.stands equal) (by.rest bound split.now.truths.items case.now.items)) }
{
    match rest(&split.truths, case, 0, bound) {
        Some(left) => stands(equal, left) == value,
        None => false,
    }
}

/// Whether the row has no whole numbers, and is so in each case.
fn is_constant(split: &Split, equal: bool, bound: i128, cases: &Vec<Vec<bool>>, value: bool) -> bool
    requires { map (λ c. c.items) cases.now.items ≡ by.cases (length split.now.truths.items) }
    ensures { result ≡ spec.is_constant (view.split split.now) equal bound value }
{
    if !split.numbers.is_empty() {
        return false;
    }
    for case in cases {
        if !is_so(split, equal, bound, case, value) {
            return false;
        }
    }
    true
}

/// The conclusion under conditions, alone, if both are there.
fn concluded(
    alloc: Global,
    conditions: Option<Vec<Expr>>,
    conclusion: Option<Expr>,
) -> Result<Option<Vec<Expr>>, AllocError>
    ensures { IfOk result (λ o. option_map (λ v. map tree.expression v.items) o ≡
        spec.concluded (option_map (λ v. map tree.expression v.items) conditions) (option_map tree.expression conclusion)) }
{
    let Some(conditions) = conditions else {
        return Ok(None);
    };
    match conclusion {
        Some(conclusion) => Ok(Some(vec![in alloc; implied(alloc, conditions, conclusion)?]?)),
        None => Ok(None),
    }
}

/// That the conditions do not hold together, alone, if they are there.
fn excluded_alone(
    alloc: Global,
    conditions: Option<Vec<Expr>>,
) -> Result<Option<Vec<Expr>>, AllocError>
    ensures { IfOk result (λ o. option_map (λ v. map tree.expression v.items) o ≡
        option_map spec.alone (option_and_then by.excluded (option_map (λ v. map tree.expression v.items) conditions))) }
{
    let Some(conditions) = conditions else {
        return Ok(None);
    };
    match excluded(alloc, conditions)? {
        Some(said) => Ok(Some(vec![in alloc; said]?)),
        None => Ok(None),
    }
}

/// What a row says in one case, where that bound is left for the whole numbers: nothing where it is true; none where it cannot be said.
fn said_under(
    alloc: Global,
    scope: &Scope<'_>,
    split: &Split,
    equal: bool,
    case: &[bool],
    left: i128,
) -> Result<Option<Vec<Expr>>, AllocError>
    requires numbers { AllByRecursion IsCoefficient split.now.numbers.items }
    requires left { Fits left }
    ensures { IfOk result (λ o. option_map (λ v. map tree.expression v.items) o ≡
        spec.said_under (view.scope scope.now) equal split.now.numbers.items (by.conditions (view.scope scope.now) split.now.truths.items case.now) left) }
{
    if !split.numbers.is_empty() {
        let conditions = conditions(alloc, scope, &split.truths, case)?;
        let said = sum_said(alloc, scope, equal, &split.numbers, left)?;
        return concluded(alloc, conditions, said);
    }
    if stands(equal, left) {
        return Ok(Some(Vec::new(alloc)));
    }
    excluded_alone(alloc, conditions(alloc, scope, &split.truths, case)?)
}

/// What a row says in one case; none where it cannot be said.
fn case_said(
    alloc: Global,
    scope: &Scope<'_>,
    split: &Split,
    equal: bool,
    bound: i128,
    case: &[bool],
) -> Result<Option<Vec<Expr>>, AllocError>
    requires numbers { AllByRecursion IsCoefficient split.now.numbers.items }
    requires bound { Fits bound }
    ensures { IfOk result (λ o. option_map (λ v. map tree.expression v.items) o ≡ spec.case_said (view.scope scope.now) (view.split split.now) equal bound case.now) }
{
    match rest(&split.truths, case, 0, bound) {
        Some(left) => said_under(alloc, scope, split, equal, case, left),
        None => Ok(None),
    }
}

/// What a row says, case by case; none where it cannot be said.
fn by_cases(
    alloc: Global,
    scope: &Scope<'_>,
    split: &Split,
    equal: bool,
    bound: i128,
    cases: &Vec<Vec<bool>>,
) -> Result<Option<Vec<Expr>>, AllocError>
    requires numbers { AllByRecursion IsCoefficient split.now.numbers.items }
    requires bound { Fits bound }
    ensures { IfOk result (λ o. option_map (λ v. map tree.expression v.items) o ≡
        spec.cases_said (view.scope scope.now) (view.split split.now) equal bound (map (λ c. c.items) cases.now.items)) }
{
    let mut said = Vec::new(alloc);
    for case in cases {
        match case_said(alloc, scope, split, equal, bound, case)? {
            Some(mut more) => said.append(&mut more)?,
            None => return Ok(None),
        }
    }
    Ok(Some(said))
}

/// Whether each column can be said.
fn can_say_all(scope: &Scope<'_>, terms: &[(u32, i128)]) -> bool
    ensures { result ≡ spec.can_say_all (view.scope scope.now) terms.now }
{
    for (column, _) in terms {
        if !scope.can_say(*column) {
            return false;
        }
    }
    true
}

/// What a row says, if all its columns can be said.
fn if_sayable(
    alloc: Global,
    scope: &Scope<'_>,
    row: &Row,
    split: &Split,
    equal: bool,
    cases: &Vec<Vec<bool>>,
) -> Result<Option<Vec<Expr>>, AllocError>
    requires numbers { AllByRecursion IsCoefficient split.now.numbers.items }
    requires cases { map (λ c. c.items) cases.now.items ≡ by.cases (length split.now.truths.items) }
    ensures { IfOk result (λ o. option_map (λ v. map tree.expression v.items) o ≡ spec.if_sayable (view.scope scope.now) row.now (view.split split.now) equal) }
{
    if !can_say_all(scope, row.terms()) {
        return Ok(None);
    }
    by_cases(alloc, scope, split, equal, row.bound(), cases)
}

/// Adds what is said; what cannot be said is false in a premise, and elsewhere true.
fn add_or_missing(
    scope: &Scope<'_>,
    said: Option<Vec<Expr>>,
    members: &mut Members,
) -> Result<(), AllocError>
    ensures { OnOk result (conjuncts members.new ≡ with_members (conjuncts members.old) (spec.or_missing (view.scope scope.now) (option_map (λ v. map tree.expression v.items) said))) }
{
    match said {
        Some(said) => members.add_all(Members { never: false, said }),
        None => {
            if scope.premise {
                members.deny();
            }
            Ok(())
        }
    }
}

/// Adds what the terms of a row say, its boolean columns apart.
fn add_split(
    alloc: Global,
    scope: &Scope<'_>,
    row: &Row,
    split: &Split,
    equal: bool,
    members: &mut Members,
) -> Result<(), AllocError>
    requires { AllByRecursion IsCoefficient split.now.numbers.items }
    ensures { OnOk result (conjuncts members.new ≡ with_members (conjuncts members.old) (spec.split_said (view.scope scope.now) row.now (view.split split.now) equal)) }
{
    let cases = cases(alloc, split.truths.len())?;
    if is_constant(split, equal, row.bound(), &cases, true) {
        return Ok(());
    }
    if is_constant(split, equal, row.bound(), &cases, false) {
        members.deny();
        return Ok(());
    }
    let said = if_sayable(alloc, scope, row, split, equal, &cases)?;
    add_or_missing(scope, said, members)
}

/// Adds what a row says, as an equality or an inequality. What cannot be said is false in a premise, and elsewhere true.
pub fn add_row(
    alloc: Global,
    scope: &Scope<'_>,
    row: &Row,
    equal: bool,
    members: &mut Members,
) -> Result<(), AllocError>
    ensures { OnOk result (conjuncts members.new ≡ with_members (conjuncts members.old) (spec.row_said (view.scope scope.now) row.now equal)) }
{
    let split = set_apart(alloc, scope, row.terms())?;
    add_split(alloc, scope, row, &split, equal, members)
}

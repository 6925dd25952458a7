//! What a leaf of a triple's refutation adds up.

ghost use Rattle.std.specs.Prelude.{◌≡◌, ◌-◌, List, ◌∷◌, pos, true, false, nat_eq, length, map, reverse, slice_get, slice_set, unwrap_or, IfOk, OnOk, if◌then◌else◌};
ghost use Rattle.std.specs.List.{AllByRecursion};
ghost use Rattle.math_facts.specs.Fits.{Fits};
ghost use Rattle.math_facts.specs.Terms.{coefficient};
ghost use Rattle.lin_rows.specs.Rows.{AscendsFrom, IsCoefficient};
ghost use Rattle.lin_rows.specs.Sums.{led_by};
ghost use Rattle.lin_rows.specs.Tightening.{content};
ghost use Rattle.farkas_check.specs.Trees.{leaf_tree};
ghost use Rattle.nested_itp.specs.NestedPredicates.Sums.{Branch, terms_from};
ghost use Rattle.nested_itp.specs.NestedRefutations.Refutations as refutations;
ghost use Rattle.nested_itp.specs.NestedRefutations.Refutations.{View, multipliers, is_again};
ghost use Rattle.nested_itp.specs.TripleWalks.Leaves.{number_of_pair, terms_here, claim_terms, tie_number, TellAt, IsSeen, is_met, with_met};
ghost use Rattle.nested_itp.specs.TripleWalks.Telling.{AllTell};
ghost use Rattle.nested_itp.specs.TripleWalks.Goals.{role_of};

use crate::triple_steps::Tie;
use crate::triple_walks::claims::Claim;
use crate::triple_walks::goals::Role;
use crate::triple_walks::trees::Tree;
use lin_rows::Col;
use math_facts::greatest_divisor;
use std::alloc::{AllocError, Global};
use triple_rows::PredNode;

/// The parts of a leaf of a triple's refutation, whose rows have these roles, for the leaf of the word's refutation with this
/// number, which has these parts. It takes the time of the rows.
pub(crate) fn leaf(
    alloc: Global,
    tree: &Tree,
    claims: &[Claim],
    roles: &[Role],
    node: usize,
    parts: &[(u32, i128)],
) -> Result<Vec<(u32, i128)>, AllocError>
    requires { AscendsFrom 0 parts.now }
    ensures { IfOk result (λ f. (v : View) (b : Branch) → AllTell v.columns tree.now (record { node = node; branch = b; tree = leaf_tree parts.now }) v.claims claims.now → f.items ≡ terms_from 0 (multipliers v node b parts.now (map role_of roles.now))) }
{
    let mut seen = vec![in alloc; false; claims.len()]?;
    let mut added = Vec::new(alloc);
    for i in 0..roles.len() {
        let at = roles.len() - 1 - i;
        let multiplier = row_multiplier(tree, claims, roles[at], node, parts, &mut seen);
        add(&mut added, at, multiplier)?;
    }
    Ok(turned(added))
}

/// The multiplier of a row, where the rows after it were seen: 0 for an atom that stands again among them.
fn row_multiplier(
    tree: &Tree,
    claims: &[Claim],
    role: Role,
    node: usize,
    parts: &[(u32, i128)],
    seen: &mut Vec<bool>,
) -> i128
    requires { AscendsFrom 0 parts.now }
    ensures value { (v : View) (b : Branch) (rs : List refutations.Role) → TellAt v tree.now claims.now node b parts.now → IsSeen (length claims.now) node rs seen.old.items → result ≡ (if is_again (role_of role) rs then pos 0 else refutations.multiplier v node b parts.now (role_of role)) }
    ensures seen { (rs : List refutations.Role) → IsSeen (length claims.now) node rs seen.old.items → IsSeen (length claims.now) node (role_of role ∷ rs) seen.new.items }
{
    if meet_row(seen, node, role) {
        0
    } else {
        multiplier(tree, claims, role, node, parts)
    }
}

/// Sees a row: whether it is an atom at the leaf that was seen before.
fn meet_row(seen: &mut Vec<bool>, node: usize, role: Role) -> bool
    ensures value { result ≡ is_met node seen.old.items role }
    ensures seen { seen.new.items ≡ with_met node seen.old.items role }
{
    match role {
        Role::Atom { claim, leaf } if leaf == node => meet_atom(seen, claim),
        _ => false,
    }
}

/// Sees the atom of a claim: whether it was seen before.
fn meet_atom(seen: &mut Vec<bool>, claim: usize) -> bool
    ensures value { result ≡ unwrap_or (slice_get seen.old.items claim) false }
    ensures seen { seen.new.items ≡ slice_set seen.old.items claim true }
{
    if claim >= seen.len() {
        return false;
    }
    let before = seen[claim];
    seen[claim] = true;
    before
}

/// The multiplier of a row with this role.
fn multiplier(tree: &Tree, claims: &[Claim], role: Role, node: usize, parts: &[(u32, i128)]) -> i128
    requires { AscendsFrom 0 parts.now }
    ensures { (v : View) (b : Branch) → TellAt v tree.now claims.now node b parts.now → result ≡ refutations.multiplier v node b parts.now (role_of role) }
{
    match role {
        Role::Spare => 0,
        Role::Atom { claim, leaf } => atom_multiplier(tree, claims, claim, leaf, node),
        Role::Word(row) => number_at(parts, row),
        Role::Tied(tie) => tie_multiplier(tree, claims, tie, node),
    }
}

/// That of the atom of a claim at a leaf.
fn atom_multiplier(tree: &Tree, claims: &[Claim], claim: usize, leaf: usize, node: usize) -> i128
    ensures { result ≡ (if nat_eq leaf node then pos (content (claim_terms tree.now node (slice_get claims.now claim))) else pos 0) }
{
    if leaf == node {
        content(claim_terms(tree, claims, claim, node))
    } else {
        0
    }
}

/// That of a row that ties two frames.
fn tie_multiplier(tree: &Tree, claims: &[Claim], tie: Tie, node: usize) -> i128
    ensures { result ≡ tie_number (claim_terms tree.now node (slice_get claims.now 0)) (claim_terms tree.now node (slice_get claims.now (length claims.now - 1))) tie }
{
    let last = claims.len().saturating_sub(1);
    match tie {
        Tie::Target(column) => number_at(claim_terms(tree, claims, last, node), column),
        Tie::Opposite(column) => -number_at(claim_terms(tree, claims, last, node), column),
        Tie::Source(column) => -number_at(claim_terms(tree, claims, 0, node), column),
    }
}

/// The terms of the sum of the claim with a number, at a leaf.
fn claim_terms<'a>(tree: &'a Tree, claims: &[Claim], i: usize, node: usize) -> &'a [(Col, i128)]
    ensures value { result.now ≡ claim_terms tree.now node (slice_get claims.now i) }
    ensures ascends { AscendsFrom 0 result.now }
    ensures coefficients { AllByRecursion IsCoefficient result.now }
{
    let Some(claim) = claims.get(i) else {
        return &[];
    };
    match tree.at(node, claim.position) {
        Some(found) => terms_here(found),
        None => &[],
    }
}

/// The terms of a node, if it is an inequality.
fn terms_here(node: &PredNode) -> &[(Col, i128)]
    ensures value { result.now ≡ terms_here node.now }
    ensures ascends { AscendsFrom 0 result.now }
    ensures coefficients { AllByRecursion IsCoefficient result.now }
{
    match node {
        PredNode::Atom(row) => row.terms(),
        PredNode::Truth(_) | PredNode::And(_) | PredNode::Or(_) => &[],
    }
}

/// The greatest common divisor of the coefficients, which fits as they do.
fn content(terms: &[(Col, i128)]) -> i128
    requires { AllByRecursion IsCoefficient terms.now }
    ensures { result ≡ pos (content terms.now) }
{
    let mut divisor = 0;
    for term in terms {
        divisor = greatest_divisor(divisor, term.1.unsigned_abs());
    }
    divisor as i128
}

/// The number at a key, of pairs that ascend; 0 where there is none.
fn number_at(pairs: &[(u32, i128)], key: usize) -> i128
    requires { AscendsFrom 0 pairs.now }
    ensures value { result ≡ coefficient key pairs.now }
    ensures fits { AllByRecursion IsCoefficient pairs.now → Fits result }
{
    let place = pairs.partition_point(|pair| (pair.0 as usize) < key);
    number_in(pairs, place, key)
}

/// The number at a place, if its key is this one; else 0.
fn number_in(pairs: &[(u32, i128)], place: usize, key: usize) -> i128
    ensures value { result ≡ number_of_pair key (slice_get pairs.now place) }
    ensures fits { AllByRecursion IsCoefficient pairs.now → Fits result }
{
    match pairs.get(place) {
        Some(pair) if pair.0 as usize == key => pair.1,
        _ => 0,
    }
}

/// Adds the row with a number, unless it is taken 0 times. No memory holds as many rows where their number does not fit.
fn add(parts: &mut Vec<(u32, i128)>, number: usize, multiplier: i128) -> Result<(), AllocError>
    ensures { OnOk result (reverse parts.new.items ≡ led_by number multiplier (reverse parts.old.items)) }
{
    if multiplier == 0 {
        return Ok(());
    }
    let Ok(number) = u32::try_from(number) else {
        return Err(AllocError);
    };
    parts.push((number, multiplier))?;
    Ok(())
}

/// The last one first.
fn turned(parts: Vec<(u32, i128)>) -> Vec<(u32, i128)>
    ensures { result.items ≡ reverse parts.items }
{
    let mut turned = parts;
    turned.as_mut_slice().reverse();
    turned
}

//! The refutation of a letter's triple.

ghost use Rattle.std.specs.Prelude.{◌≡◌, ℕ, List, [], ◌∷◌, pos, IfOk, OnOk, length};
ghost use Rattle.std.specs.List.{AllByRecursion};
ghost use Rattle.farkas_check.specs.Nodes.{PlainNode, leaf, plain_nodes};
ghost use Rattle.farkas_check.specs.Trees as trees;
ghost use Rattle.nwa_base.specs.declared.letters.Letter.{Letter};
ghost use Rattle.letter_acts.specs.Invariant.{Graph};
ghost use Rattle.nested_itp.specs.NestedPredicates.Stamps.{stamps_of};
ghost use Rattle.nested_itp.specs.NestedPredicates.Positions.{positions_of};
ghost use Rattle.nested_itp.specs.NestedPredicates.Sums.{root_of};
ghost use Rattle.nested_itp.specs.NestedRefutations.Refutations.{View};
ghost use Rattle.nested_itp.specs.NestedRefutations.Numbers as numbers;
ghost use Rattle.nested_itp.specs.NestedRefutations.Numbers.{spares, branch_rows};
ghost use Rattle.nested_itp.specs.NestedRefutations.Waiting.{StepWaits};
ghost use Rattle.nested_itp.specs.TripleSteps.Steps.{IsStep};
ghost use Rattle.nested_itp.specs.declared.triple_steps.sections.Section.TheVariants as sections;
ghost use Rattle.nested_itp.specs.TripleWalks.Spots.{IsTree};
ghost use Rattle.nested_itp.specs.TripleWalks.Claims.{AreClaims};
ghost use Rattle.nested_itp.specs.TripleWalks.Leaves.{Ascends};
ghost use Rattle.nested_itp.specs.TripleWalks.Goals.{plain_goal, with_roles};
ghost use Rattle.nested_itp.specs.TripleWalks.Ties.Walking.{IsLed, Known, IsThere};
ghost use Rattle.nested_itp.specs.TripleWalks.Putting.{IsPlaced, IsPutFor, root_spot, is_false_in, with_section, IsLaid};

use crate::triple_steps::{Section, Step};
use crate::triple_walks::claims::Claim;
use crate::triple_walks::exposing::exposed_at;
use crate::triple_walks::goals::{Goal, Role};
use crate::triple_walks::trees::Tree;
use crate::triple_walks::walks::{Guide, claim_at, run};
use farkas_check::Node;
use std::alloc::{AllocError, Global};

/// The refutation of a step's triple along the tree of the refutation of a word's rows, which has these nodes: where one of its
/// claims is false the leaf that takes its row `0 <= -1`, else what is put down from the root on. The word has so many rows.
pub fn refutation(
    alloc: Global,
    nodes: &[Node],
    tree: &Tree,
    step: &Step,
    rows: usize,
) -> Result<Vec<Node>, AllocError>
    requires placed { AllByRecursion (IsPlaced step.now.columns) (plain_nodes nodes.now) }
    requires ascend { AllByRecursion Ascends (plain_nodes nodes.now) }
    ensures { IfOk result (λ v. (g : Graph) (w : List Letter) (t : trees.Tree) (s : numbers.Step) → IsTree (stamps_of g w).columns (positions_of g w) (root_of g w) t (plain_nodes nodes.now) tree.now → IsStep g w t s step.now → StepWaits g w t s → rows ≡ length (root_of g w).rows → IsPutFor g w t s (plain_nodes v.items)) }
{
    let claims = claims_of(alloc, tree, step)?;
    let guide = Guide {
        nodes,
        tree,
        claims: claims.as_slice(),
        returns: step.returns,
        columns: &step.columns,
        rows,
    };
    put_for(alloc, &guide, step.sections.as_slice())
}

/// What is put down for a system with these sections: where a claim is false the leaf that takes its row, else the walk's nodes.
fn put_for(alloc: Global, guide: &Guide, sections: &[Section]) -> Result<Vec<Node>, AllocError>
    requires placed { AllByRecursion (IsPlaced guide.now.columns.now) (plain_nodes guide.now.nodes.now) }
    requires ascend { AllByRecursion Ascends (plain_nodes guide.now.nodes.now) }
    ensures { IfOk result (λ f. (g : Graph) (w : List Letter) (t : trees.Tree) (s : numbers.Step) → IsLed s.view guide.now → IsThere s.view guide.now (root_spot g w t) (record { node = 0; depth = 0 }) → IsLaid g w t s sections.now → StepWaits g w t s → IsPutFor g w t s (plain_nodes f.items)) }
{
    let mut goal = Goal::new(alloc);
    for i in 0..sections.len() {
        if is_false(guide, sections[i]) {
            return falsity(alloc, goal.roles.len());
        }
        add_section(alloc, guide, &mut goal, sections[i])?;
    }
    run(alloc, guide, goal)
}

/// What the system says of the predicates, of the target last.
fn claims_of(alloc: Global, tree: &Tree, step: &Step) -> Result<Vec<Claim>, AllocError>
    ensures { IfOk result (λ v. (g : Graph) (w : List Letter) (t : trees.Tree) (s : numbers.Step) (nodes : List PlainNode) → IsTree (stamps_of g w).columns (positions_of g w) (root_of g w) t nodes tree.now → IsStep g w t s step.now → AreClaims (stamps_of g w).columns (positions_of g w) (root_of g w) t s.view.claims v.items) }
{
    let mut claims = Vec::new(alloc);
    for i in 0..step.sources.len() {
        claims.push(Claim::of(alloc, tree, step.sources[i], false)?)?;
    }
    claims.push(Claim::of(alloc, tree, step.target, true)?)?;
    Ok(claims)
}

/// Whether a section is that of a claim that is false.
fn is_false(guide: &Guide, section: Section) -> bool
    ensures { (g : Graph) (w : List Letter) (t : trees.Tree) (v : View) → Known v guide.now (root_spot g w t) → result ≡ is_false_in g w t v section }
{
    match section {
        Section::Claim(claim) => is_false_claim(guide, claim),
        Section::Spare(_) | Section::Rows { .. } | Section::Tie(_) => false,
    }
}

/// Whether there is a claim with this number that is false.
fn is_false_claim(guide: &Guide, claim: usize) -> bool
    ensures { (g : Graph) (w : List Letter) (t : trees.Tree) (v : View) → Known v guide.now (root_spot g w t) → result ≡ is_false_in g w t v (sections.Claim claim) }
{
    match claim_at(guide.claims, claim) {
        Some(found) => found.is_false(),
        None => false,
    }
}

/// Adds the rows of a section.
fn add_section(
    alloc: Global,
    guide: &Guide,
    goal: &mut Goal,
    section: Section,
) -> Result<(), AllocError>
    ensures { OnOk result ((g : Graph) (w : List Letter) (t : trees.Tree) (v : View) → IsLed v guide.now → Known v guide.now (root_spot g w t) → plain_goal goal.new ≡ with_section g w t v section (plain_goal goal.old)) }
{
    match section {
        Section::Claim(claim) => add_claim(alloc, guide, goal, claim),
        Section::Spare(count) => add_spares(goal, count),
        Section::Rows { first, count } => add_rows(goal, first, count),
        Section::Tie(tie) => goal.add(Role::Tied(tie)),
    }
}

/// Adds what the claim with a number gives, if there is one.
fn add_claim(alloc: Global, guide: &Guide, goal: &mut Goal, claim: usize) -> Result<(), AllocError>
    ensures { OnOk result ((g : Graph) (w : List Letter) (t : trees.Tree) (v : View) → IsLed v guide.now → Known v guide.now (root_spot g w t) → plain_goal goal.new ≡ with_section g w t v (sections.Claim claim) (plain_goal goal.old)) }
{
    let Some(found) = claim_at(guide.claims, claim) else {
        return Ok(());
    };
    let given = exposed_at(alloc, guide.tree, found, 0)?;
    goal.give(claim, guide.is_used(claim), &given)
}

/// Adds rows that no leaf uses.
fn add_spares(goal: &mut Goal, count: usize) -> Result<(), AllocError>
    ensures { OnOk result (plain_goal goal.new ≡ with_roles (spares count) (plain_goal goal.old)) }
{
    for _i in 0..count {
        goal.add(Role::Spare)?;
    }
    Ok(())
}

/// Adds rows with the multipliers of rows of the word. No memory holds as many where their numbers do not fit.
fn add_rows(goal: &mut Goal, first: usize, count: usize) -> Result<(), AllocError>
    ensures { OnOk result (plain_goal goal.new ≡ with_roles (branch_rows first count) (plain_goal goal.old)) }
{
    for i in 0..count {
        match first.checked_add(i) {
            Some(row) => goal.add(Role::Word(row))?,
            None => return Err(AllocError),
        }
    }
    Ok(())
}

/// The refutation that takes the row with this number alone. No memory holds as many rows where the number does not fit.
fn falsity(alloc: Global, row: usize) -> Result<Vec<Node>, AllocError>
    ensures { IfOk result (λ v. plain_nodes v.items ≡ leaf ((row, pos 1) ∷ []) ∷ []) }
{
    if row > u32::MAX as usize {
        return Err(AllocError);
    }
    let mut parts = Vec::new(alloc);
    parts.push((row as u32, 1))?;
    let mut nodes = Vec::new(alloc);
    nodes.push(Node::Leaf(parts))?;
    Ok(nodes)
}

//! Decide of a system.

ghost use Rattle.std.specs.Prelude.{◌≡◌, ◌+◌, ◌<◌, ◌^◌, Err, IfOk, IfSome, OnOk, IsTrue, MatchBool};
ghost use Rattle.farkas_check.specs.Nodes.{plain_nodes, is_tree};
ghost use Rattle.farkas_check.specs.Refutes.{Refutes};
ghost use Rattle.fm_elim.specs.Answers.{Exactly};
ghost use Rattle.int_decide.specs.Ties.Alike.{EndsAlike};
ghost use Rattle.int_decide.specs.Answers.{decision_of, IsWorthOf, OfRefuted, OfWhole, RefutesWithin, IsDecided};
ghost use Rattle.int_decide.specs.Decide.{decide};
ghost use Rattle.int_decide.specs.Decisions.{refuted, gap};
ghost use Rattle.int_decide.specs.Numbers.{DecideFits};
ghost use Rattle.int_decide.specs.Ties.Searching.{EliminationsFit, Ends};
ghost use Rattle.int_decide.specs.Sizes.{extent, SystemBelow};

use crate::accepting::accepted;
use crate::proposing::{MOST_GOALS, proposed};
use crate::search::{Search, Step};
use crate::types::{Answer, DecideFault};
use farkas_check::{Node, check, tree};
use fm_elim::ElimFault;
use lin_rows::System;
use std::alloc::{AllocError, Global};

/// How the search ends.
#[derive(Drop)]
pub(crate) enum Ending {
    /// All goals are refuted, by these nodes.
    Closed(Vec<Node>),
    /// A whole point is found.
    Met(Vec<i128>),
    /// Neither.
    Open,
}

/// Decide of a system over the columns below `columns`, with at most `depth` cuts on a branch (Gomory, 1958): Decide's own
/// refutation, as a tree of cuts and cases, or Decide's own whole point, with a value for each column. It eliminates the
/// columns of the rows, cuts at the first value of the point found that is not whole, and takes the members of a group one
/// by one. Its time may be exponential in the depth, in the number of groups and in the number of columns.
///
/// # Errors
///
/// `Past` comes exactly where a number that this computation forms does not fit: one of an elimination, or a product or
/// running sum of a leaf of the refutation. Otherwise `Gap` comes exactly where a point was not whole and no cut was left,
/// and no whole point is found elsewhere. `Memory` comes where memory ran out.
pub fn plain(
    alloc: Global,
    system: &System,
    columns: u32,
    depth: u32,
) -> Result<Answer, DecideFault>
    requires below { SystemBelow columns system.now }
    // row numbers and counts of cases have 32 bits
    requires numbered { extent system.now + depth < 2 ^ 32 }
    ensures value { IfOk result (λ a. decision_of a ≡ decide columns depth system.now) }
    ensures worth { IfOk result (IsWorthOf columns depth system.now) }
    ensures fits { OnOk result (DecideFits columns depth system.now) }
    ensures gap { result ≡ Err DecideFault.Gap →
        (decide columns depth system.now ≡ gap) × DecideFits columns depth system.now }
    ensures past { result ≡ Err DecideFault.Past → DecideFits columns depth system.now → ⊥ }
{
    match searched(alloc, system, columns, depth)? {
        Ending::Met(values) => Ok(Answer::Whole(values)),
        Ending::Open => Err(DecideFault::Gap),
        Ending::Closed(nodes) => checked(alloc, system, nodes),
    }
}

/// The refutation with these nodes, where the products and sums of its leaves fit.
fn checked(alloc: Global, system: &System, nodes: Vec<Node>) -> Result<Answer, DecideFault>
    requires whole_tree { IsTrue (is_tree (plain_nodes nodes.items)) }
    ensures value { IfOk result (λ a. decision_of a ≡ refuted (plain_nodes nodes.items)) }
    ensures refutes { OnOk result (Refutes (plain_nodes nodes.items) system.now) }
    ensures past { result ≡ Err DecideFault.Past → Refutes (plain_nodes nodes.items) system.now → ⊥ }
    ensures no_gap { result ≡ Err DecideFault.Gap → ⊥ }
{
    let Some(proof) = tree(nodes) else {
        unreachable!();
    };
    if check(alloc, system, &proof)? {
        Ok(Answer::Refuted(proof))
    } else {
        Err(DecideFault::Past)
    }
}

/// How the search through the system ends.
fn searched(alloc: Global, system: &System, columns: u32, depth: u32) -> Result<Ending, ElimFault>
    requires below { SystemBelow columns system.now }
    requires numbered { extent system.now + depth < 2 ^ 32 }
    ensures { Exactly result (Ends columns depth system.now) (EliminationsFit columns depth system.now) }
{
    let mut search = Search::new(alloc, system, depth)?;
    while let Some(left) = search.next()? {
        if let Some(values) = search.meet(alloc, columns, left)? {
            return Ok(Ending::Met(values));
        }
    }
    if search.gap {
        Ok(Ending::Open)
    } else {
        Ok(Ending::Closed(search.nodes))
    }
}

/// How the search through the system ends by outcomes that stand in for those of the eliminations, where they are found.
fn picked(
    alloc: Global,
    system: &System,
    columns: u32,
    depth: u32,
) -> Result<Option<Ending>, AllocError>
    requires below { SystemBelow columns system.now }
    requires numbered { extent system.now + depth < 2 ^ 32 }
    ensures { IfOk result (λ o. IfSome o (EndsAlike columns depth system.now)) }
{
    let mut search = Search::new(alloc, system, depth)?;
    for _goal in 0..MOST_GOALS {
        let Some(left) = search.next()? else {
            return Ok(Some(ending_of(search)));
        };
        match search.meet_picked(alloc, columns, left)? {
            Step::Gone => {}
            Step::Met(values) => return Ok(Some(Ending::Met(values))),
            Step::Lost => return Ok(None),
        }
    }
    Ok(None)
}

/// How a search ends that has no goal left.
fn ending_of(search: Search) -> Ending
    ensures { MatchBool search.entry.gap (result ≡ Ending.Open) (result ≡ Ending.Closed search.entry.nodes) }
{
    if search.gap {
        Ending::Open
    } else {
        Ending::Closed(search.nodes)
    }
}

/// Decide of a system: a refutation that `farkas_check::check` accepts, with at most `depth` cuts on a branch, or Decide's own
/// whole point. A simplex is asked for refutations first, then for what the eliminations of Decide would find; what it proposes
/// is checked. The rest is answered by `plain`. So the refutation need not be Decide's own, and its time may be exponential.
///
/// # Errors
///
/// `Gap` comes only where Decide finds neither, `Past` only where a number of Decide does not fit, `Memory` where memory ran
/// out.
pub fn decide(
    alloc: Global,
    system: &System,
    columns: u32,
    depth: u32,
) -> Result<Answer, DecideFault>
    requires below { SystemBelow columns system.now }
    // row numbers and counts of cases have 32 bits
    requires numbered { extent system.now + depth < 2 ^ 32 }
    ensures refuted { IfOk result (λ a. OfRefuted a (RefutesWithin depth system.now)) }
    ensures whole { IfOk result (λ a. OfWhole a (IsDecided columns depth system.now)) }
    ensures gap { result ≡ Err DecideFault.Gap → decide columns depth system.now ≡ gap }
    ensures past { result ≡ Err DecideFault.Past → DecideFits columns depth system.now → ⊥ }
{
    if let Some(proof) = proposed(alloc, system, columns, depth)? {
        return Ok(Answer::Refuted(proof));
    }
    match picked(alloc, system, columns, depth)? {
        Some(Ending::Met(values)) => return Ok(Answer::Whole(values)),
        Some(Ending::Open) => return Err(DecideFault::Gap),
        Some(Ending::Closed(nodes)) => {
            if let Some(proof) = accepted(alloc, system, depth, nodes)? {
                return Ok(Answer::Refuted(proof));
            }
        }
        None => {}
    }
    plain(alloc, system, columns, depth)
}

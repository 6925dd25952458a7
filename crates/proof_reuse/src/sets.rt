//! Numbers of predicates that are put into sets.

ghost use Rattle.std.specs.Prelude.{OnOk};
ghost use Rattle.proof_reuse.specs.Ties.Sets.{Inserts, InsertsAll};

use indexmap::IndexSet;
use std::alloc::AllocError;

pub(crate) fn add_pair(
    set: &mut IndexSet<(usize, usize)>,
    pair: (usize, usize),
) -> Result<(), AllocError>
    ensures { OnOk result (Inserts set.old.keys pair set.new.keys) }
{
    set.insert(pair)?;
    Ok(())
}

pub(crate) fn add_three(
    set: &mut IndexSet<(usize, usize, usize)>,
    three: (usize, usize, usize),
) -> Result<(), AllocError>
    ensures { OnOk result (Inserts set.old.keys three set.new.keys) }
{
    set.insert(three)?;
    Ok(())
}

/// Adds all of these pairs.
pub(crate) fn add_pairs(
    set: &mut IndexSet<(usize, usize)>,
    pairs: Vec<(usize, usize)>,
) -> Result<(), AllocError>
    ensures { OnOk result (InsertsAll set.old.keys pairs.items set.new.keys) }
{
    for pair in pairs {
        add_pair(set, pair)?;
    }
    Ok(())
}

/// Adds all of these.
pub(crate) fn add_threes(
    set: &mut IndexSet<(usize, usize, usize)>,
    threes: Vec<(usize, usize, usize)>,
) -> Result<(), AllocError>
    ensures { OnOk result (InsertsAll set.old.keys threes.items set.new.keys) }
{
    for three in threes {
        add_three(set, three)?;
    }
    Ok(())
}

//! What places of a program choose.

ghost use Rattle.std.specs.Prelude.{◌≡◌, ◌-◌, ◌∷◌, ◌++◌, [], OnOk, slice_get};
ghost use Rattle.std.specs.Option.{option_map};
ghost use Rattle.trace_replay.specs.ToldChoices.Ties.Walks as walks;
ghost use Rattle.trace_replay.specs.ToldChoices.Ties.Views.{plain_kind, plain_kinds};

use std::alloc::AllocError;

/// What a place of a program chooses.
#[derive(Drop)]
pub(crate) enum Kind {
    /// Nothing.
    Silent,
    /// A value for the column of this number.
    Guesses(usize),
    /// One of several ways.
    Picks,
    /// After an entry with so many arguments, the results and locals of the callee.
    Enters(usize),
    /// All that a call of this procedure, which has no body, chooses, with the numbers of its targets.
    Imports(u32, Vec<usize>),
}

/// That of a place, which has this number: they count from 1.
pub(crate) fn kind_at(kinds: &[Kind], place: u32) -> Option<&Kind>
    ensures { option_map (λ k. plain_kind k.now) result ≡ slice_get (plain_kinds kinds.now) (place - 1) }
{
    kinds.get(place.saturating_sub(1) as usize)
}

/// Adds a place that chooses this.
pub(crate) fn add(kinds: &mut Vec<Kind>, kind: Kind) -> Result<(), AllocError>
    ensures { OnOk result (plain_kinds kinds.new.items ≡ plain_kinds kinds.old.items ++ plain_kind kind ∷ []) }
{
    kinds.push(kind)?;
    Ok(())
}

/// Adds so many places that choose nothing.
pub(crate) fn add_silent(kinds: &mut Vec<Kind>, count: usize) -> Result<(), AllocError>
    ensures { OnOk result (plain_kinds kinds.new.items ≡ plain_kinds kinds.old.items ++ walks.silent count) }
{
    for _i in 0..count {
        add(kinds, Kind::Silent)?;
    }
    Ok(())
}

//! The turn of the cell: it is won, and then the state is out of the slot with the seat that won, until it is put back.

ghost use Rattle.std.specs.Prelude.{◌≡◌, ◌+◌, ◌≤◌, [], ◌∷◌, ◌++◌, None, Some, length, MatchResult};
ghost use Rattle.std.specs.Arc.{arc_value};
ghost use Rattle.race_core.specs.Ends.{kind_in};
ghost use Rattle.race_core.specs.Histories.{IsFair, IsLegal};
ghost use Rattle.race_core.specs.Steps.{publish_refusal, finish_refusal};
ghost use Rattle.version_cell.specs.Views.{holding, with_entry, informed, with_end};
ghost use Rattle.version_cell.specs.Ties.Plays.{IsIdle, GoesOn, Holds, Grows, Closes};
ghost use Rattle.version_cell.specs.Passes.{IsTable};

use crate::board::{Board, Bump, Finish, Place, Release, Win};
use nwa_base::Nwa;
use race_core::{End, EndKind, Entry, Event, Evidence, FinishRefused, Outcome, Refused, Shared};
use std::sync::{Arc, Wait};

/// Waits until the turn is won, and takes the state.
pub(crate) fn win<E: Evidence, R: Wait>(rt: &R, top: &Board<E>, place: &mut Place<E>) -> Shared<E>
    requires table { (place.old.table_id ≡ top.now.table_id) × IsTable top.now.table_id }
    requires idle { IsIdle place.old.me }
    ensures seat { (place.new.table_id ≡ place.old.table_id) × (place.new.id ≡ place.old.id) × (place.new.me ≡ (holding place.old.me.0 result, (0, None) ∷ [])) }
    ensures state { GoesOn place.old.me.0 result }
{
    for _ in rt.forever() {
        if top.compare_exchange::<Win>(place, 0, 0, 1) == 0 {
            return top.exchange(place, 0, None).unwrap();
        }
        // Sleeps while the turn is held. Whoever frees it wakes one.
        top.park(rt, 0, 1);
    }
    unreachable!()
}

/// Puts the state back as it was, and frees the turn.
pub(crate) fn release<E: Evidence>(top: &Board<E>, place: &mut Place<E>, state: Shared<E>)
    requires table { (place.old.table_id ≡ top.now.table_id) × IsTable top.now.table_id }
    requires slot { place.old.me.1 ≡ (0, None) ∷ [] }
    requires state { Holds place.old.me.0 state }
    ensures seat { (place.new.table_id ≡ place.old.table_id) × (place.new.id ≡ place.old.id) × (place.new.me ≡ (informed place.old.me.0 (Some state), [])) }
    ensures legal { IsLegal E.automaton E.feasible state.program state.history }
{
    // The history tells that it is legal, which the pass keeps of what it has seen.
    state.history();
    top.exchange(place, 0, Some(state));
    top.store::<Release>(place, 0, 0);
    top.wake_one(0);
}

/// Puts the state back with one more entry, raises the version, and frees the turn. Answers the place of the entry.
pub(crate) fn announce<E: Evidence>(top: &Board<E>, place: &mut Place<E>, state: Shared<E>) -> u64
    requires table { (place.old.table_id ≡ top.now.table_id) × IsTable top.now.table_id }
    requires slot { place.old.me.1 ≡ (0, None) ∷ [] }
    requires state { Grows place.old.me.0 state × (state.limit ≤ 100000) }
    ensures seat { (place.new.table_id ≡ place.old.table_id) × (place.new.id ≡ place.old.id) × (place.new.me ≡ (informed (with_entry place.old.me.0 (Some state) result) (Some state), [])) }
    ensures version { result + 1 ≡ length state.history }
    ensures legal { IsLegal E.automaton E.feasible state.program state.history }
{
    state.history();
    // The room that is left tells that the version is small.
    state.sized();
    top.exchange(place, 0, Some(state));
    let entry = top.fetch_add::<Bump>(place, 1, 1);
    top.store::<Release>(place, 0, 0);
    top.wake_one(0);
    entry
}

/// Puts the state back with its end set, and frees the turn.
pub(crate) fn finish<E: Evidence>(top: &Board<E>, place: &mut Place<E>, state: Shared<E>)
    requires table { (place.old.table_id ≡ top.now.table_id) × IsTable top.now.table_id }
    requires slot { place.old.me.1 ≡ (0, None) ∷ [] }
    requires state { Closes place.old.me.0 state }
    ensures seat { (place.new.table_id ≡ place.old.table_id) × (place.new.id ≡ place.old.id) × (place.new.me ≡ (with_end place.old.me.0 (Some state), [])) }
    ensures legal { IsLegal E.automaton E.feasible state.program state.history }
{
    state.history();
    top.exchange(place, 0, Some(state));
    top.store::<Finish>(place, 0, 0);
    top.wake_one(0);
}

/// The core's publication.
pub(crate) fn offer_entry<E: Evidence>(
    state: &mut Shared<E>,
    base: u64,
    entry: Entry<E>,
    kept: Arc<Nwa>,
) -> Result<u64, Refused<E>>
    requires { IsFair E.automaton state.old.program state.old.history base entry (arc_value kept) }
    ensures { MatchResult result
        (λ v. (publish_refusal state.old.end (length state.old.history) state.old.limit base ≡ None) × (v ≡ length state.old.history + 1) × (state.new ≡ record state.old { history = state.old.history ++ entry ∷ []; kept = arc_value kept }))
        (λ r. (publish_refusal state.old.end (length state.old.history) state.old.limit base ≡ Some r.why) × (r.entry ≡ entry) × (r.kept ≡ kept) × (state.new ≡ state.old)) }
{
    match state.apply(Event::Publish {
        worker: 0,
        base,
        entry,
        kept,
    }) {
        Outcome::Published { version } => Ok(version),
        Outcome::NotPublished(refused) => Err(refused),
        _ => unreachable!(),
    }
}

/// The core's end.
pub(crate) fn offer_end<E: Evidence>(
    state: &mut Shared<E>,
    base: u64,
    end: End,
) -> Result<(), FinishRefused>
    ensures { MatchResult result
        (λ _. (finish_refusal state.old.end (length state.old.history) base ≡ None) × (state.new ≡ record state.old { end = Some end }))
        (λ r. (finish_refusal state.old.end (length state.old.history) base ≡ Some r.why) × (r.end ≡ end) × (state.new ≡ state.old)) }
{
    match state.apply(Event::Finish {
        worker: 0,
        base,
        end,
    }) {
        Outcome::Finished => Ok(()),
        Outcome::NotFinished(refused) => Err(refused),
        _ => unreachable!(),
    }
}

/// The kind of the state's end, where one is set.
pub(crate) fn ended<E: Evidence>(state: &Shared<E>) -> Option<EndKind>
    ensures { result ≡ kind_in state.now.end }
{
    match state.end() {
        Some(end) => Some(end.kind()),
        None => None,
    }
}

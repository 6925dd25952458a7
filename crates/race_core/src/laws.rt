//! What is true of events, over the definitions that contracts cite. No law here needs a thread: between any two events of any
//! number of workers the state is one value.

ghost use Rattle.std.specs.Prelude.{◌≡◌, ◌≢◌, ◌<◌, ◌≤◌, ◌↔◌, ℕ, List, Option, None, length};
ghost use Rattle.nwa_base.specs.declared.letters.Letter.{Letter};
ghost use Rattle.nwa_base.specs.Automata.{Automaton};
ghost use Rattle.nwa_base.specs.Acceptance.{Accepts};
ghost use Rattle.race_core.specs.declared.ends.End.{End};
ghost use Rattle.race_core.specs.declared.events.Entry.{Entry};
ghost use Rattle.race_core.specs.declared.events.Event.{Event};
ghost use Rattle.race_core.specs.Histories.{Keeps, IsFair};
ghost use Rattle.race_core.specs.Races.{Race, RaceIsSound};
ghost use Rattle.race_core.specs.Steps.{publish_refusal, finish_refusal, published, finished};
ghost use Rattle.race_core.specs.Interleavings.{after_all, AreFair};

use crate::evidence::Evidence;

/// Over every list of events that meet their conditions, the history stays legal, the kept automaton accepts exactly the
/// program's words that no published automaton accepts, and the history stays within its limit.
pub fn every_interleaving<E: Evidence>()
    ensures { (r : Race E) (events : List (Event E)) → AreFair E.automaton E.feasible r events →
        RaceIsSound E.automaton E.feasible r → RaceIsSound E.automaton E.feasible (after_all r events) }
{}

/// A publication that is taken removes its own word, which was kept before, and keeps no word that was not.
pub fn own_word_is_removed<E: Evidence>()
    ensures { (r : Race E) (base : ℕ) (entry : Entry E) (kept : Automaton) →
        publish_refusal r.end (length r.history) r.limit base ≡ None →
        Keeps E.automaton r.program r.history r.kept → IsFair E.automaton r.program r.history base entry kept →
        Accepts r.kept entry.word × (Accepts kept entry.word → ⊥) × ((w : List Letter) → Accepts kept w → Accepts r.kept w) }
{}

/// A publication is taken exactly where no end is set, the version is below the limit, and its base is the version. An end is
/// taken exactly where no end is set and its base is the version.
pub fn events_are_taken()
    ensures publications { (end : Option End) (version limit base : ℕ) →
        (publish_refusal end version limit base ≡ None) ↔ ((end ≡ None) × (version < limit) × (base ≡ version)) }
    ensures ends { (end : Option End) (version base : ℕ) →
        (finish_refusal end version base ≡ None) ↔ ((end ≡ None) × (base ≡ version)) }
{}

/// An event with a stale base changes nothing.
pub fn stale_events_change_nothing<E: Evidence>()
    ensures publications { (r : Race E) (base : ℕ) (entry : Entry E) (kept : Automaton) → base ≢ length r.history →
        published (publish_refusal r.end (length r.history) r.limit base) r entry kept ≡ r }
    ensures ends { (r : Race E) (base : ℕ) (end : End) → base ≢ length r.history →
        finished (finish_refusal r.end (length r.history) base) r end ≡ r }
{}

//! Races whose program has the empty word alone.

ghost use Rattle.std.specs.Prelude.{◌≡◌, ◌≤◌, [], IfOk};
ghost use Rattle.std.specs.Arc.{arc_value};
ghost use Rattle.race_core.specs.Samples.{empty_word, no_word};
ghost use Rattle.race_core.specs.Steps.{IsFairEvent};

use crate::answers::{show, show_no_memory, show_number, show_text};
use crate::words::shared;
use nwa_base::{Nwa, NwaFault, Word, empty, word};
use race_core::{
    Cause, End, EndKind, Entry, Event, Evidence, Outcome, Refused, Shared, Why, shared as open,
};
use std::alloc::Global;
use std::sync::Arc;
use table_reading::{first_word, number};

/// An automaton, of which the words that it does not accept are taken for feasible.
#[derive(Drop)]
struct Sample {
    nwa: Nwa,
}

impl Evidence for Sample {
    ghost use Rattle.nwa_base.specs.Acceptance.{Accepts};

    ghost automaton = { λ s. s.nwa };

    ghost feasible = { λ s w. Accepts s.nwa w → ⊥ };

    fn nwa(&self) -> &Nwa {
        &self.nwa
    }
}

fn nothing(alloc: Global) -> Result<Nwa, NwaFault>
    ensures { IfOk result (λ m. m ≡ no_word) }
{
    let nwa = empty(alloc, 1, 0)?;
    Ok(nwa)
}

fn only_empty_word(alloc: Global) -> Result<Nwa, NwaFault>
    ensures { IfOk result (λ m. m ≡ empty_word) }
{
    let mut nwa = nothing(alloc)?;
    nwa.set_final(0)?;
    Ok(nwa)
}

fn no_letters(alloc: Global) -> Result<Word, NwaFault>
    ensures { IfOk result (λ w. w ≡ []) }
{
    word(Vec::new(alloc)).ok_or(NwaFault::BadLetter)
}

fn evidence(alloc: Global) -> Result<Sample, NwaFault>
    ensures { IfOk result (λ s. s.nwa ≡ empty_word) }
{
    let nwa = only_empty_word(alloc)?;
    Ok(Sample { nwa })
}

fn entry_for(alloc: Global, word: Word) -> Result<Entry<Sample>, NwaFault>
    ensures { IfOk result (λ e. (e.word ≡ word) × (e.evidence.nwa ≡ empty_word)) }
{
    let evidence = evidence(alloc)?;
    Ok(Entry { word, evidence })
}

/// An entry, and what is kept behind it.
#[derive(Drop)]
struct Offer {
    entry: Entry<Sample>,
    kept: Arc<Nwa>,
}

fn publication_of(alloc: Global, kept: Arc<Nwa>) -> Result<Offer, NwaFault>
    ensures { IfOk result (λ o. (o.entry.word ≡ []) × (o.entry.evidence.nwa ≡ empty_word) × (o.kept ≡ kept)) }
{
    let word = no_letters(alloc)?;
    let entry = entry_for(alloc, word)?;
    Ok(Offer { entry, kept })
}

/// The entry for the empty word, behind which no word is kept.
fn publication(alloc: Global) -> Result<Offer, NwaFault>
    ensures { IfOk result (λ o. (o.entry.word ≡ []) × (o.entry.evidence.nwa ≡ empty_word) × (arc_value o.kept ≡ no_word)) }
{
    let kept = Arc::new(alloc, nothing(alloc)?)?;
    publication_of(alloc, kept)
}

fn race(alloc: Global, limit: u64) -> Result<Shared<Sample>, NwaFault>
    requires { (1 ≤ limit) × (limit ≤ 100000) }
    ensures { IfOk result (λ s. s.program ≡ empty_word) }
{
    let program = Arc::new(alloc, only_empty_word(alloc)?)?;
    Ok(open(alloc, program, limit)?)
}

/// Whether the entry for the empty word and the automaton of nothing came back.
fn is_whole(refused: &Refused<Sample>) -> bool {
    refused.entry.word.letters().is_empty()
        && refused.entry.evidence.nwa().is_final(0)
        && refused.kept.finals().is_empty()
}

fn show_refusal(rt: &HostRuntime, event: &str, why: Why, is_whole: bool) {
    if is_whole {
        let _ = println!(rt; "{event}: refused {why:?}");
    } else {
        show(rt, event, "something else came back");
    }
}

/// A version behind what was done.
fn show_version(rt: &HostRuntime, event: &str, done: &str, version: u64) {
    let _ = println!(rt; "{event}: {done} {version}");
}

fn show_outcome(rt: &HostRuntime, event: &str, outcome: &Outcome<Sample>) {
    match outcome {
        Outcome::Seen { version } => show_version(rt, event, "version", *version),
        Outcome::Published { version } => show_version(rt, event, "made version", *version),
        Outcome::Finished => show(rt, event, "ended"),
        Outcome::NotPublished(refused) => show_refusal(rt, event, refused.why, is_whole(refused)),
        Outcome::NotFinished(refused) => {
            show_refusal(rt, event, refused.why, refused.end.kind() == EndKind::Safe)
        }
    }
}

/// The answer to an event.
fn told(state: &mut Shared<Sample>, event: Event<Sample>) -> Outcome<Sample>
    requires { IsFairEvent (λ (x : Sample). x.nwa) state.old event }
    ensures { state.new.program ≡ state.old.program }
{
    state.apply(event)
}

fn read(state: &mut Shared<Sample>) -> Outcome<Sample>
    ensures { state.new.program ≡ state.old.program }
{
    told(state, Event::Read { worker: 0 })
}

/// Publishes at base 0.
fn publish(state: &mut Shared<Sample>, offer: Offer) -> Outcome<Sample>
    requires program { state.old.program ≡ empty_word }
    requires offer { (offer.entry.word ≡ []) × (offer.entry.evidence.nwa ≡ empty_word) × (arc_value offer.kept ≡ no_word) }
    ensures { state.new.program ≡ state.old.program }
{
    let Offer { entry, kept } = offer;
    let event = Event::Publish {
        worker: 0,
        base: 0,
        entry,
        kept,
    };
    told(state, event)
}

/// Ends the race as safe.
fn finish(state: &mut Shared<Sample>, base: u64) -> Outcome<Sample>
    ensures { state.new.program ≡ state.old.program }
{
    let event = Event::Finish {
        worker: 0,
        base,
        end: End::Safe,
    };
    told(state, event)
}

fn show_publication(rt: &HostRuntime, state: &mut Shared<Sample>)
    requires { state.old.program ≡ empty_word }
    ensures { state.new.program ≡ state.old.program }
{
    match publication(rt.alloc()) {
        Ok(offer) => show_outcome(rt, "publish", &publish(state, offer)),
        Err(_) => show_no_memory(rt, "publish"),
    }
}

/// The base stands behind a colon.
fn show_finish(rt: &HostRuntime, state: &mut Shared<Sample>, event: &str)
    ensures { state.new.program ≡ state.old.program }
{
    let (_, base) = event.split_once(':').unwrap_or((event, "0"));
    show_outcome(rt, event, &finish(state, u64::from(number(base))));
}

fn show_kind_of(rt: &HostRuntime, before: &str, end: &End) {
    let kind = end.kind();
    let _ = println!(rt; "{before}{kind:?}");
}

/// The end of a race: that it is open, or which one.
fn show_end(rt: &HostRuntime, end: Option<&End>) {
    match end {
        Some(end) => show_kind_of(rt, ", ended ", end),
        None => show_text(rt, ", open\n"),
    }
}

fn show_state(rt: &HostRuntime, state: &Shared<Sample>) {
    show_number(rt, "state: version ", state.version(), "");
    show_number(rt, ", entries ", state.history().len() as u64, "");
    show_number(rt, ", room ", state.sized(), "");
    show_number(
        rt,
        ", final states kept ",
        state.kept().finals().len() as u64,
        "",
    );
    show_end(rt, state.end());
}

fn show_event(rt: &HostRuntime, state: &mut Shared<Sample>, event: &str)
    requires { state.old.program ≡ empty_word }
    ensures { state.new.program ≡ state.old.program }
{
    match event {
        "read" => show_outcome(rt, event, &read(state)),
        "publish" => show_publication(rt, state),
        "state" => show_state(rt, state),
        _ => show_finish(rt, state, event),
    }
}

fn show_events(rt: &HostRuntime, state: &mut Shared<Sample>, events: &str)
    requires { state.old.program ≡ empty_word }
{
    for event in events.split_whitespace() {
        show_event(rt, state, event);
    }
}

/// The events of a race of so many entries at most.
pub(crate) fn show_race(rt: &HostRuntime, said: &str) {
    let (limit, events) = first_word(said);
    match race(rt.alloc(), u64::from(number(limit)).clamp(1, 100_000)) {
        Ok(mut state) => {
            shared(&state);
            show_events(rt, &mut state, events);
        }
        Err(_) => show_no_memory(rt, said),
    }
}

/// An end in an error, or one without an answer.
fn end_of(alloc: Global, name: &str) -> Result<End, NwaFault> {
    let word = no_letters(alloc)?;
    if name == "error" {
        Ok(End::Unsafe {
            word,
            steps: 1,
            choices: Vec::new(alloc),
        })
    } else {
        Ok(End::Unknown {
            cause: Cause::Whole,
            word,
        })
    }
}

/// The kind of an end of this name.
pub(crate) fn show_kind(rt: &HostRuntime, name: &str) {
    show_text(rt, name);
    match &end_of(rt.alloc(), name) {
        Ok(end) => show_kind_of(rt, ": ", end),
        Err(_) => show_no_memory(rt, ""),
    }
}

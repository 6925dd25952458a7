ghost use Rattle.std.specs.Prelude.{◌≡◌, ◌≤◌, ◌+◌, ◌↔◌, Bool, not, [], ◌∷◌, length, IsTrue, IfOk, IfSome};
ghost use Rattle.std.specs.Arc.{arc_value};
ghost use Rattle.nwa_base.specs.Acceptance.{Accepts};
ghost use Rattle.nwa_base.specs.declared.letters.Kind.TheVariants as kinds;
ghost use Rattle.race_core.specs.Histories.{Keeps};
ghost use Rattle.version_cell.specs.Passes.{IsPassOf, newcomer};
ghost use Rattle.version_cell.specs.Samples.{letter_of, one_letter, two_words, one_word, no_words, IsRest};

use nwa_base::{Kind, Letter, Nwa, NwaFault, Word, accepts, empty, word};
use race_core::{End, EndKind, Entry, Evidence, FinishRefused, Refused, Shared, Why};
use std::alloc::Global;
use std::sync::{Arc, Wait};
use std::test::Fail;
use std::thread::{Threads, join};
use version_cell::{Pass, Snapshot, VersionCell, create};

/// An automaton, of which the words that it does not accept are taken for feasible.
#[derive(Drop)]
struct Sample {
    nwa: Nwa,
}

impl Evidence for Sample {
    ghost use Rattle.nwa_base.specs.Acceptance.{Accepts};

    ghost automaton = { λ s. s.nwa };

    ghost feasible = { λ s w. Accepts s.nwa w → ⊥ };

    fn nwa(&self) -> &Nwa {
        &self.nwa
    }
}

fn shared<T: Send + Sync>(_value: &T) {}

fn sent<T: Send>(_value: &T) {}

/// The letter a for true, b for false.
fn letter(first: bool) -> Letter
    ensures { result ≡ letter_of first }
{
    Letter {
        id: if first { 0 } else { 1 },
        kind: Kind::Inside,
        call: 0,
    }
}

/// The automaton of no word.
fn nothing(alloc: Global) -> Result<Nwa, NwaFault>
    ensures { IfOk result (λ m. m ≡ no_words) }
{
    let mut nwa = empty(alloc, 2, 0)?;
    nwa.set_final(1)?;
    Ok(nwa)
}

/// The automaton of one word of one letter.
fn only(alloc: Global, first: bool) -> Result<Nwa, NwaFault>
    ensures { IfOk result (λ m. m ≡ one_word first) }
{
    let mut nwa = nothing(alloc)?;
    nwa.add_inside(0, letter(first), 1)?;
    Ok(nwa)
}

/// The automaton of both words.
fn both(alloc: Global) -> Result<Nwa, NwaFault>
    ensures { IfOk result (λ m. m ≡ two_words) }
{
    let mut nwa = only(alloc, true)?;
    nwa.add_inside(0, letter(false), 1)?;
    Ok(nwa)
}

fn one(alloc: Global, first: bool) -> Result<Word, NwaFault>
    ensures { IfOk result (λ w. w ≡ letter_of first ∷ []) }
{
    let letters = vec![in alloc; letter(first)]?;
    word(letters).ok_or(NwaFault::BadLetter)
}

/// The entry of the word with an automaton of its own.
fn entry_for(alloc: Global, word: Word, first: bool) -> Result<Entry<Sample>, NwaFault>
    ensures { IfOk result (λ e. (e.word ≡ word) × (e.evidence.nwa ≡ one_word first)) }
{
    let nwa = only(alloc, first)?;
    Ok(Entry {
        word,
        evidence: Sample { nwa },
    })
}

fn entry(alloc: Global, first: bool) -> Result<Entry<Sample>, NwaFault>
    ensures { IfOk result (λ e. (e.word ≡ letter_of first ∷ []) × (e.evidence.nwa ≡ one_word first)) }
{
    let word = one(alloc, first)?;
    entry_for(alloc, word, first)
}

/// Whether the word is kept.
fn is_left(alloc: Global, kept: &Nwa, first: bool) -> Result<bool, NwaFault>
    ensures { IfOk result (λ b. IsTrue b ↔ Accepts kept.now (letter_of first ∷ [])) }
{
    let word = one(alloc, first)?;
    Ok(accepts(alloc, kept, &word)?)
}

/// What is kept when the other word was taken: this one, where it is kept.
fn rest(alloc: Global, kept: &Nwa, first: bool) -> Result<Nwa, NwaFault>
    ensures { IfOk result (λ m. IsRest kept.now first m) }
{
    if is_left(alloc, kept, first)? {
        Ok(only(alloc, first)?)
    } else {
        Ok(nothing(alloc)?)
    }
}

/// A cell whose program is the two words, and its pass with these shares.
fn cell(
    alloc: Global,
    limit: u64,
    shares: u64,
) -> Result<(VersionCell<Sample>, Pass<Sample>), NwaFault>
    requires { (1 ≤ limit) × (limit ≤ 100000) × (1 ≤ shares) }
    ensures { IfOk result (λ t. (t.0.program ≡ two_words) × (t.0.shares ≡ shares) × (t.1 ≡ newcomer t.0) × IsPassOf t.0 t.1) }
{
    let program = Arc::new(alloc, both(alloc)?)?;
    Ok(create(alloc, program, limit, shares)?)
}

/// What the pass reads, or nothing where there is no memory for it.
fn look<R: Wait>(rt: &R, cell: &VersionCell<Sample>, pass: &mut Pass<Sample>) -> Option<Snapshot>
    requires { IsPassOf cell.now pass.old }
    ensures kept { IfSome result (λ s. (length pass.new.seen ≡ s.version) × Keeps (λ (x : Sample). x.nwa) pass.new.program pass.new.seen (arc_value s.kept)) }
    ensures of_cell { IsPassOf cell.now pass.new }
    ensures shares { pass.new.shares ≡ pass.old.shares }
{
    cell.read(rt, pass).ok()
}

fn spells(entry: Option<&Entry<Sample>>, first: bool) -> bool {
    match entry {
        Some(entry) => entry.word.letters() == [letter(first)].as_slice(),
        None => false,
    }
}

/// What a pass is told.
#[derive(Clone, Copy, Debug, PartialEq, Eq)]
enum Told {
    /// It has read this version, with so many words left, and this end.
    Read(u64, usize, Option<EndKind>),
    /// Its publication made this version.
    Published(u64),
    /// Its publication was refused for this reason. The entry came back, with an automaton of as many edges.
    Refused(Why, usize),
    /// Its publication was refused, and another entry came back.
    Changed,
    /// The word is not left.
    NotLeft,
    /// It has ended the race.
    Finished,
    /// Its end was refused for this reason.
    NotFinished(Why),
    /// There is no memory.
    Nothing,
}

/// Whether the entry for the word b came back.
fn is_whole(entry: &Entry<Sample>) -> bool {
    spells(Some(entry), false) && entry.evidence.nwa().insides().len() == 1
}

type Offered = Result<Option<Result<u64, Refused<Sample>>>, NwaFault>;

fn summary(offered: &Offered) -> Told {
    match offered {
        Ok(Some(Ok(version))) => Told::Published(*version),
        Ok(Some(Err(refused))) => if is_whole(&refused.entry) {
            Told::Refused(refused.why, refused.kept.insides().len())
        } else {
            Told::Changed
        }
        Ok(None) => Told::NotLeft,
        Err(_) => Told::Nothing,
    }
}

/// Publishes the word over what was read. `None` where it is not left.
fn offer<R: Wait>(
    rt: &R,
    alloc: Global,
    cell: &VersionCell<Sample>,
    pass: &mut Pass<Sample>,
    found: &Snapshot,
    first: bool,
) -> Result<Option<Result<u64, Refused<Sample>>>, NwaFault>
    requires of_cell { IsPassOf cell.now pass.old × (cell.now.program ≡ two_words) }
    requires found { (length pass.old.seen ≡ found.now.version) × Keeps (λ (x : Sample). x.nwa) pass.old.program pass.old.seen (arc_value found.now.kept) }
    ensures of_cell { IsPassOf cell.now pass.new }
    ensures shares { pass.new.shares ≡ pass.old.shares }
{
    if !is_left(alloc, &found.kept, first)? {
        return Ok(None);
    }
    let kept = Arc::new(alloc, rest(alloc, &found.kept, !first)?)?;
    let entry = entry(alloc, first)?;
    Ok(Some(cell.publish(rt, pass, found.version, entry, kept)))
}

/// Publishes the word over what was read, where there is memory.
fn offer_over<R: Wait>(
    rt: &R,
    alloc: Global,
    cell: &VersionCell<Sample>,
    pass: &mut Pass<Sample>,
    found: &Option<Snapshot>,
    first: bool,
) -> Told
    requires of_cell { IsPassOf cell.now pass.old × (cell.now.program ≡ two_words) }
    requires found { IfSome found.now (λ s. (length pass.old.seen ≡ s.version) × Keeps (λ (x : Sample). x.nwa) pass.old.program pass.old.seen (arc_value s.kept)) }
    ensures of_cell { IsPassOf cell.now pass.new }
    ensures shares { pass.new.shares ≡ pass.old.shares }
{
    match found {
        Some(found) => summary(&offer(rt, alloc, cell, pass, found, first)),
        None => Told::Nothing,
    }
}

fn ended(answer: &Result<(), FinishRefused>) -> Told {
    match answer {
        Ok(()) => Told::Finished,
        Err(refused) => Told::NotFinished(refused.why),
    }
}

/// Ends the race as safe at the base.
fn finish<R: Wait>(rt: &R, cell: &VersionCell<Sample>, pass: &mut Pass<Sample>, base: u64) -> Told
    requires { IsPassOf cell.now pass.old }
    ensures of_cell { IsPassOf cell.now pass.new }
    ensures shares { pass.new.shares ≡ pass.old.shares }
{
    ended(&cell.finish(rt, pass, base, End::Safe))
}

fn seen(found: &Option<Snapshot>) -> Told {
    match found {
        Some(found) => Told::Read(found.version, found.kept.insides().len(), found.ended),
        None => Told::Nothing,
    }
}

/// Reads.
fn glance<R: Wait>(rt: &R, cell: &VersionCell<Sample>, pass: &mut Pass<Sample>) -> Told
    requires { IsPassOf cell.now pass.old }
    ensures of_cell { IsPassOf cell.now pass.new }
    ensures shares { pass.new.shares ≡ pass.old.shares }
{
    let found = look(rt, cell, pass);
    seen(&found)
}

/// Reads and publishes once.
fn attempt<R: Wait>(
    rt: &R,
    alloc: Global,
    cell: &VersionCell<Sample>,
    pass: &mut Pass<Sample>,
    first: bool,
) -> Told
    requires { IsPassOf cell.now pass.old × (cell.now.program ≡ two_words) }
    ensures of_cell { IsPassOf cell.now pass.new }
    ensures shares { pass.new.shares ≡ pass.old.shares }
{
    let found = look(rt, cell, pass);
    offer_over(rt, alloc, cell, pass, &found, first)
}

/// What a pass does.
#[derive(Clone, Copy)]
enum Step {
    /// It reads.
    Read,
    /// It reads, and publishes the word a for true, b for false.
    Publish(bool),
    /// It ends the race as safe at this base.
    Finish(u64),
}

fn act<R: Wait>(
    rt: &R,
    alloc: Global,
    cell: &VersionCell<Sample>,
    pass: &mut Pass<Sample>,
    step: Step,
) -> Told
    requires { IsPassOf cell.now pass.old × (cell.now.program ≡ two_words) }
    ensures of_cell { IsPassOf cell.now pass.new }
    ensures shares { pass.new.shares ≡ pass.old.shares }
{
    match step {
        Step::Read => glance(rt, cell, pass),
        Step::Publish(first) => attempt(rt, alloc, cell, pass, first),
        Step::Finish(base) => finish(rt, cell, pass, base),
    }
}

/// A step of the first pass, or of the second.
fn turn<R: Wait>(
    rt: &R,
    alloc: Global,
    cell: &VersionCell<Sample>,
    first: &mut Pass<Sample>,
    second: &mut Pass<Sample>,
    is_first: bool,
    step: Step,
) -> Told
    requires of_cell { IsPassOf cell.now first.old × (cell.now.program ≡ two_words) }
    requires second { IsPassOf cell.now second.old }
    ensures first { IsPassOf cell.now first.new × (first.new.shares ≡ first.old.shares) }
    ensures second { IsPassOf cell.now second.new × (second.new.shares ≡ second.old.shares) }
{
    if is_first {
        act(rt, alloc, cell, first, step)
    } else {
        act(rt, alloc, cell, second, step)
    }
}

/// Whether it is the first pass that acts, its step, and what it is told.
type Turn = (bool, Step, Told);

/// What was told at the first turn at which something else is wanted.
fn first_wrong_turn<R: Wait>(
    rt: &R,
    alloc: Global,
    cell: &VersionCell<Sample>,
    first: &mut Pass<Sample>,
    second: &mut Pass<Sample>,
    turns: &[Turn],
) -> Option<Told>
    requires of_cell { IsPassOf cell.now first.old × (cell.now.program ≡ two_words) }
    requires second { IsPassOf cell.now second.old }
    ensures first { IsPassOf cell.now first.new × (first.new.shares ≡ first.old.shares) }
    ensures second { IsPassOf cell.now second.new × (second.new.shares ≡ second.old.shares) }
{
    for (is_first, step, wanted) in turns {
        let told = turn(rt, alloc, cell, first, second, *is_first, *step);
        if told != *wanted {
            return Some(told);
        }
    }
    None
}

/// Both passes read, then the first publishes a, and the second b over what it read before.
fn both_offer<R: Wait>(
    rt: &R,
    alloc: Global,
    cell: &VersionCell<Sample>,
    first: &mut Pass<Sample>,
    second: &mut Pass<Sample>,
) -> [Told; 2]
    requires of_cell { IsPassOf cell.now first.old × (cell.now.program ≡ two_words) }
    requires second { IsPassOf cell.now second.old }
    ensures first { IsPassOf cell.now first.new × (first.new.shares ≡ first.old.shares) }
    ensures second { IsPassOf cell.now second.new × (second.new.shares ≡ second.old.shares) }
{
    let opening = look(rt, cell, first);
    let early = look(rt, cell, second);
    let one = offer_over(rt, alloc, cell, first, &opening, true);
    let other = offer_over(rt, alloc, cell, second, &early, false);
    [one, other]
}

/// The second publishes a word after it has read again, and the first ends the race.
const TWO_WORDS: [Turn; 6] = [
    (false, Step::Read, Told::Read(1, 1, None)),
    (false, Step::Publish(false), Told::Published(2)),
    (true, Step::Read, Told::Read(2, 0, None)),
    (
        true,
        Step::Finish(1),
        Told::NotFinished(Why::Stale { version: 2 }),
    ),
    (true, Step::Finish(2), Told::Finished),
    (
        false,
        Step::Finish(2),
        Told::NotFinished(Why::Ended(EndKind::Safe)),
    ),
];

/// Whether the closed race has both words in this order, and an end.
fn has_both(state: &Shared<Sample>) -> [bool; 4] {
    let history = state.history();
    [
        history.len() == 2,
        spells(history.first(), true),
        spells(history.last(), false),
        state.end().is_some(),
    ]
}

/// Two passes publish a word each, and the first ends the race.
fn words_in_turn<R: Wait>(
    rt: &R,
    alloc: Global,
) -> Result<([Told; 2], Option<Told>, [bool; 4]), NwaFault> {
    let (cell, mut first) = cell(alloc, 2, 2)?;
    let mut second = cell.split(&mut first);
    shared(&cell);
    sent(&second);
    let offered = both_offer(rt, alloc, &cell, &mut first, &mut second);
    let wrong = first_wrong_turn(rt, alloc, &cell, &mut first, &mut second, &TWO_WORDS);
    cell.join(&mut first, second);
    let state = cell.close(first);
    Ok((offered, wrong, has_both(&state)))
}

/// What both passes are told of their first words: the second has read too early.
const IN_TURN: [Told; 2] = [
    Told::Published(1),
    Told::Refused(Why::Stale { version: 1 }, 1),
];

#[test]
fn two_words_in_turn(rt: HostRuntime) -> Result<(), Fail> {
    let (offered, wrong, closed) = words_in_turn(&rt, rt.alloc())?;
    assert!(rt; offered == IN_TURN, "{offered:?}");
    assert!(rt; wrong.is_none(), "{wrong:?}");
    assert!(rt; closed == [true; 4], "{closed:?}");
    Ok(())
}

/// The second word is refused also over the last version; after the end everything is.
const AFTER_FULL: [Turn; 6] = [
    (
        false,
        Step::Publish(false),
        Told::Refused(Why::Full { limit: 1 }, 0),
    ),
    (
        false,
        Step::Finish(0),
        Told::NotFinished(Why::Stale { version: 1 }),
    ),
    (false, Step::Finish(1), Told::Finished),
    (
        true,
        Step::Finish(1),
        Told::NotFinished(Why::Ended(EndKind::Safe)),
    ),
    (true, Step::Read, Told::Read(1, 1, Some(EndKind::Safe))),
    (
        true,
        Step::Publish(false),
        Told::Refused(Why::Ended(EndKind::Safe), 0),
    ),
];

fn full_race<R: Wait>(rt: &R, alloc: Global) -> Result<([Told; 2], Option<Told>), NwaFault> {
    let (cell, mut first) = cell(alloc, 1, 2)?;
    let mut second = cell.split(&mut first);
    let offered = both_offer(rt, alloc, &cell, &mut first, &mut second);
    let wrong = first_wrong_turn(rt, alloc, &cell, &mut first, &mut second, &AFTER_FULL);
    Ok((offered, wrong))
}

/// What both passes are told where the limit is 1: the second has read too early, and is refused for the limit.
const FULL: [Told; 2] = [Told::Published(1), Told::Refused(Why::Full { limit: 1 }, 1)];

/// With a limit of 1 a second entry is refused as `Full` at any base, and after the end everything as `Ended`.
#[test]
fn full_comes_before_stale(rt: HostRuntime) -> Result<(), Fail> {
    let (offered, wrong) = full_race(&rt, rt.alloc())?;
    assert!(rt; offered == FULL, "{offered:?}");
    assert!(rt; wrong.is_none(), "{wrong:?}");
    Ok(())
}

fn is_published(told: Told) -> bool {
    matches!(told, Told::Published(_))
}

/// Reads and publishes, and once more. Where the other thread came first, the second time succeeds.
fn attempts<R: Wait>(
    rt: &R,
    alloc: Global,
    cell: &VersionCell<Sample>,
    pass: &mut Pass<Sample>,
    first: bool,
) -> bool
    requires { IsPassOf cell.now pass.old × (cell.now.program ≡ two_words) }
    ensures of_cell { IsPassOf cell.now pass.new }
    ensures shares { pass.new.shares ≡ pass.old.shares }
{
    let once = attempt(rt, alloc, cell, pass, first);
    let twice = attempt(rt, alloc, cell, pass, first);
    is_published(once) | is_published(twice)
}

/// What one of two threads does.
fn work<R: Wait>(
    rt: &R,
    alloc: Global,
    cell: &VersionCell<Sample>,
    pass: Pass<Sample>,
    first: bool,
) -> (bool, Pass<Sample>)
    requires { IsPassOf cell.now pass × (cell.now.program ≡ two_words) }
    ensures of_cell { IsPassOf cell.now result.1 }
    ensures shares { result.1.shares ≡ pass.shares }
{
    let mut pass = pass;
    let done = attempts(rt, alloc, cell, &mut pass, first);
    (done, pass)
}

/// A thread for each word. The two passes are joined.
fn both_work<R: Threads + Wait + Sync>(
    rt: &R,
    alloc: Global,
    cell: &VersionCell<Sample>,
    one: Pass<Sample>,
    two: Pass<Sample>,
) -> (bool, Pass<Sample>)
    requires { IsPassOf cell.now one × IsPassOf cell.now two × (cell.now.program ≡ two_words) }
    ensures { IsPassOf cell.now result.1 × (result.1.shares ≡ one.shares + two.shares) }
{
    let (one, two) = join(
        rt,
        || -> (bool, Pass<Sample>)
            requires { IsPassOf cell.now one × (cell.now.program ≡ two_words) }
            ensures { IsPassOf cell.entry.now result.1 × (result.1.shares ≡ one.shares) }
        { work(rt, alloc, cell, one, true) },
        || -> (bool, Pass<Sample>)
            requires { IsPassOf cell.now two × (cell.now.program ≡ two_words) }
            ensures { IsPassOf cell.entry.now result.1 × (result.1.shares ≡ two.shares) }
        { work(rt, alloc, cell, two, false) },
    );
    let (one_done, mut pass) = one;
    let (two_done, other) = two;
    cell.join(&mut pass, other);
    (one_done & two_done, pass)
}

/// Whether both words stand in the history, in either order.
fn are_words(history: &[Entry<Sample>]) -> bool {
    let in_order = spells(history.first(), true) & spells(history.last(), false);
    let in_other_order = spells(history.first(), false) & spells(history.last(), true);
    (history.len() == 2) & (in_order | in_other_order)
}

/// Whether both threads have published, and whether the closed history has both words.
fn words_of_threads<R: Threads + Wait + Sync>(
    rt: &R,
    alloc: Global,
) -> Result<(bool, bool), NwaFault> {
    let (cell, mut first) = cell(alloc, 2, 2)?;
    let second = cell.split(&mut first);
    let (done, pass) = both_work(rt, alloc, &cell, first, second);
    let state = cell.close(pass);
    Ok((done, are_words(state.history())))
}

/// Two threads publish a word each, and the closed history has both.
#[test]
fn two_threads(rt: HostRuntime) -> Result<(), Fail> {
    let found = words_of_threads(&rt, rt.alloc())?;
    assert!(rt; found == (true, true), "{found:?}");
    Ok(())
}

/// Splits a pass off as often as is said, and joins all of them again.
fn split_and_join(cell: &VersionCell<Sample>, pass: &mut Pass<Sample>, times: u64)
    requires { IsPassOf cell.now pass.old × (times + 1 ≤ pass.old.shares) }
    ensures { IsPassOf cell.now pass.new × (pass.new.shares ≡ pass.old.shares) }
{
    if times > 0 {
        let other = cell.split(pass);
        split_and_join(cell, pass, times - 1);
        cell.join(pass, other);
    }
}

/// The version of the closed race, and whether it has an end.
fn closed(alloc: Global) -> Result<(u64, bool), NwaFault> {
    let (cell, mut pass) = cell(alloc, 1, 64)?;
    split_and_join(&cell, &mut pass, 63);
    let state = cell.close(pass);
    Ok((state.version(), state.end().is_some()))
}

/// 64 passes at one time, which are joined and closed.
#[test]
fn many_passes(rt: HostRuntime) -> Result<(), Fail> {
    let found = closed(rt.alloc())?;
    assert!(rt; found == (0, false), "{found:?}");
    Ok(())
}

/// Publishes with one pass where the other was dropped, and ends the race.
fn with_one_left<R: Wait>(rt: &R, alloc: Global) -> Result<[Told; 2], NwaFault> {
    let (cell, mut first) = cell(alloc, 2, 2)?;
    let dropped = cell.split(&mut first);
    drop(dropped);
    let told = attempt(rt, alloc, &cell, &mut first, true);
    Ok([told, finish(rt, &cell, &mut first, 1)])
}

/// A pass that is dropped keeps its shares, and the others go on.
#[test]
fn a_dropped_pass(rt: HostRuntime) -> Result<(), Fail> {
    let found = with_one_left(&rt, rt.alloc())?;
    assert!(rt; found == [Told::Published(1), Told::Finished], "{found:?}");
    Ok(())
}

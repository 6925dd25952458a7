//! What comes of a kept word.

ghost use Rattle.std.specs.Prelude.{◌≡◌, ◌<◌, ◌≤◌, ℕ, ℤ, List, true, IfOk};
ghost use Rattle.std.specs.List.{AllByRecursion};
ghost use Rattle.nwa_base.specs.declared.letters.Letter.{Letter};
ghost use Rattle.nwa_base.specs.Acceptance.{Accepts};
ghost use Rattle.lin_rows.specs.Rows.{Holds};
ghost use Rattle.letter_acts.specs.Feasible.{IsFeasible};
ghost use Rattle.letter_acts.specs.Invariant.{alphabet_of};
ghost use Rattle.typed_tree.specs.TypedTree.{TypedProgram};
ghost use Rattle.typed_tree.specs.TypingRules.TypedParts.{typed_program};
ghost use Rattle.lowered_graph.specs.Lowered.{lowered};
ghost use Rattle.path_rows.specs.Paths.{IsPathOf};
ghost use Rattle.path_decide.specs.Decided.{IsRefutation};
ghost use Rattle.race_rounds.specs.Rounds.{SettlesWord, SettlesKept, ends_by_products, settled_by_products, AllAreCoarse, rounds_with_others};

use crate::exact::exact_word;
use crate::failing::{failing, failing_with};
use crate::limits::{Limits, Round};
use crate::plans::choice_of;
use crate::products::is_by_products;
use crate::refining::{Refined, refine};
use farkas_check::Refutation;
use int_decide::{Answer, DecideFault};
use itp_automaton::Certified;
use letter_acts::Icfg;
use nwa_base::{Nwa, Word};
use nwa_emptiness::Found;
use path_decide::decide_path;
use path_rows::{PathSystem, rows_of};
use race_core::{Cause, End, Entry};
use std::alloc::{AllocError, Global};
use std::thread::Threads;
use typed_tree::typing_rules::Typed;

/// What is made of a kept word.
#[derive(Drop)]
pub enum Settled {
    /// An entry that removes it.
    Removed(Entry<Certified>),
    /// An end.
    Ended(End),
}

/// Whether nothing is known of a word for its products.
fn ends_by_products(end: &End) -> bool
    ensures { result ≡ ends_by_products end.now }
{
    match end {
        End::Unknown { cause, .. } => is_by_products(*cause),
        End::Safe | End::Unsafe { .. } => false,
    }
}

/// In so many rounds a word without coarse letters is taken where nothing is known of another for its products. Later ones end the race, so that
/// what makes the search go on and on does not keep from the user that products do.
const ROUNDS_WITH_OTHERS: u64 = 32;

/// What is made of one of the words that are kept: of the given one, or, in the first rounds, where nothing is known of it for its products, of one
/// without coarse letters, where there is one. Workers with different numbers make different automata. Where the numbers are seen to meet the rows of
/// the given word and tell a run that fails, this is its end, and its rows are not decided.
pub fn settle_kept<R: Threads + Sync>(
    rt: &R,
    alloc: Global,
    program: &Typed,
    icfg: &Icfg,
    limits: Limits,
    round: Round,
    kept: &Nwa,
    word: Word,
    numbers: &[i128],
) -> Result<Settled, AllocError>
    requires lowered { icfg.now ≡ lowered (typed_program program.now) }
    requires words { (w : List Letter) → Accepts kept.now w → Accepts icfg.now.automaton w }
    requires kept { Accepts kept.now word }
    requires depth { limits.depth ≤ 64 }
    ensures settles { IfOk result (SettlesKept (typed_program program.now) limits round.version kept.now) }
    ensures products { IfOk result (λ s. settled_by_products s ≡ true → round.version < rounds_with_others → AllAreCoarse icfg.now kept.now) }
{
    match settle(rt, alloc, program, icfg, limits, round, word, numbers)? {
        Settled::Removed(entry) => Ok(Settled::Removed(entry)),
        Settled::Ended(end) => settle_end(rt, alloc, program, icfg, limits, round, kept, end),
    }
}

/// The end, or, in the first rounds, where nothing is known of its word for its products, what is made of a word without coarse letters, where there
/// is one.
fn settle_end<R: Threads + Sync>(
    rt: &R,
    alloc: Global,
    program: &Typed,
    icfg: &Icfg,
    limits: Limits,
    round: Round,
    kept: &Nwa,
    end: End,
) -> Result<Settled, AllocError>
    requires lowered { icfg.now ≡ lowered (typed_program program.now) }
    requires words { (w : List Letter) → Accepts kept.now w → Accepts icfg.now.automaton w }
    requires settles { SettlesKept (typed_program program.now) limits round.version kept.now (Settled.Ended end) }
    requires depth { limits.depth ≤ 64 }
    ensures settles { IfOk result (SettlesKept (typed_program program.now) limits round.version kept.now) }
    ensures products { IfOk result (λ s. settled_by_products s ≡ true → round.version < rounds_with_others → AllAreCoarse icfg.now kept.now) }
{
    if round.version >= ROUNDS_WITH_OTHERS {
        return Ok(Settled::Ended(end));
    }
    if !ends_by_products(&end) {
        return Ok(Settled::Ended(end));
    }
    match exact_word(alloc, icfg, kept, round.worker)? {
        Found::Word(exact) => settle(rt, alloc, program, icfg, limits, round, exact, &[]),
        Found::Empty => Ok(Settled::Ended(end)),
    }
}

/// What is made of a kept word: an entry with it, or an end. Workers with different numbers make different automata.
fn settle<R: Threads + Sync>(
    rt: &R,
    alloc: Global,
    program: &Typed,
    icfg: &Icfg,
    limits: Limits,
    round: Round,
    word: Word,
    numbers: &[i128],
) -> Result<Settled, AllocError>
    requires lowered { icfg.now ≡ lowered (typed_program program.now) }
    requires accepted { Accepts icfg.now.automaton word }
    requires depth { limits.depth ≤ 64 }
    ensures { IfOk result (SettlesWord (typed_program program.now) limits round.version word) }
{
    let path = rows_of(alloc, icfg, &word)?;
    settle_rows(
        rt, alloc, program, icfg, limits, round, word, &path, numbers,
    )
}

/// What is made of a kept word, by its rows. Where the numbers are seen to meet them and tell a run that fails, they are not decided.
fn settle_rows<R: Threads + Sync>(
    rt: &R,
    alloc: Global,
    program: &Typed,
    icfg: &Icfg,
    limits: Limits,
    round: Round,
    word: Word,
    path: &PathSystem,
    numbers: &[i128],
) -> Result<Settled, AllocError>
    requires lowered { icfg.now ≡ lowered (typed_program program.now) }
    requires accepted { Accepts icfg.now.automaton word }
    requires path { IsPathOf icfg.now path.now }
    requires exact { (point : ℕ → ℤ) → AllByRecursion (Holds point) path.now.rows → IsFeasible (alphabet_of icfg.now) word }
    requires word { path.now.word ≡ word }
    requires depth { limits.depth ≤ 64 }
    ensures { IfOk result (SettlesWord (typed_program program.now) limits round.version word) }
{
    if let Some(end) = failing_with(alloc, program, icfg, limits, &word, path, numbers)? {
        return Ok(Settled::Ended(end));
    }
    match decide_path(alloc, path, limits.depth) {
        Ok(Answer::Refuted(refutation)) => {
            refuted(rt, alloc, icfg, limits, round, word, path, &refutation)
        }
        Ok(Answer::Whole(point)) => {
            let end = failing(
                alloc,
                program,
                icfg,
                limits,
                word,
                &point,
                &path.system().rows,
            )?;
            Ok(Settled::Ended(end))
        }
        Err(DecideFault::Gap) => Ok(unknown(Cause::Whole, word)),
        Err(DecideFault::Past) => Ok(unknown(Cause::Number, word)),
        Err(DecideFault::Memory) => Err(AllocError),
    }
}

/// What is made of a kept word whose rows are refuted: an entry only where there are fewer than the rounds.
fn refuted<R: Threads + Sync>(
    rt: &R,
    alloc: Global,
    icfg: &Icfg,
    limits: Limits,
    round: Round,
    word: Word,
    path: &PathSystem,
    refutation: &Refutation,
) -> Result<Settled, AllocError>
    requires path { IsPathOf icfg.now path.now }
    requires word { path.now.word ≡ word }
    requires refutation { IsRefutation icfg.now limits.depth path.now.word refutation.now }
    requires depth { limits.depth ≤ 64 }
    ensures { (t : TypedProgram) → icfg.now ≡ lowered t → IfOk result (SettlesWord t limits round.version word) }
{
    if round.version >= limits.rounds {
        return Ok(unknown(Cause::Rounds, word));
    }
    let choice = choice_of(round);
    match refine(rt, alloc, icfg, path, refutation, limits, choice)? {
        Refined::Evidence(evidence) => Ok(Settled::Removed(Entry { word, evidence })),
        Refined::Unknown(cause) => Ok(unknown(cause, word)),
    }
}

/// That nothing is known of a word, for this cause.
fn unknown(cause: Cause, word: Word) -> Settled
    ensures { result ≡ Settled.Ended (End.Unknown cause word) }
{
    Settled::Ended(End::Unknown { cause, word })
}

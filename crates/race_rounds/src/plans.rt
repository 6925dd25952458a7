//! What a worker does in a round.

use crate::limits::Round;
use nwa_base::Nwa;

/// Before the first round a walker tries so many letters for each edge of the program, a fraction of what a round takes.
const MOVES_OF_AN_EDGE: u64 = 300;

/// But it does not try more of them, in some milliseconds.
const MOST_FIRST_MOVES: u64 = 40_000;

/// Before a later round it tries no more than so many.
const MOST_MOVES: u64 = 50_000;

/// In how many rounds a worker keeps to its first choice.
const FIRST_ROUNDS: u64 = 10;

/// Which refutation of a word's rows the predicates of a round are made from.
#[derive(Clone, Copy)]
pub(crate) enum Choice {
    /// By late rows: a loop that is left by its own guard gets the fact of the guard, and not a count of its turns.
    Late,
    /// With lemmas on parameters and old values: a callee in which facts of the caller are needed gets a summary with a condition.
    Entries,
    /// With lemmas on what callees have where they return, too: results that bound each other.
    Exits,
}

/// How many edges an automaton has.
fn edges_of(nwa: &Nwa) -> u64 {
    let forward = nwa.insides().len().saturating_add(nwa.calls().len());
    forward.saturating_add(nwa.backs().len()) as u64
}

/// How many letters a worker's walker tries over a program before a round. One worker of a race walks. Rounds over larger programs, and
/// later ones, take more time, so that walks may, too: before a later round it tries one letter for each edge and each two entries.
pub(crate) fn moves_of(program: &Nwa, round: Round) -> u64 {
    let Round { version, worker } = round;
    let edges = edges_of(program);
    if worker > 0 {
        0
    } else if version == 0 {
        edges.saturating_mul(MOVES_OF_AN_EDGE).min(MOST_FIRST_MOVES)
    } else {
        let pairs = version.saturating_mul(version.saturating_sub(1)) / 2;
        edges.saturating_mul(pairs).min(MOST_MOVES)
    }
}

/// The choice of a round for a word that goes through no recursion and back. Each choice solves programs that the others do not, so
/// they take turns; but in the first rounds, which are enough for most programs, worker 0 keeps to late rows, which cost least.
pub(crate) fn choice_of(round: Round) -> Choice {
    let Round { version, worker } = round;
    let turn = if version < FIRST_ROUNDS { 0 } else { version };
    match turn.saturating_add(u64::from(worker)) % 3 {
        0 => Choice::Late,
        1 => Choice::Entries,
        _ => Choice::Exits,
    }
}

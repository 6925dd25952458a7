ghost use Rattle.std.specs.Prelude.{◌≡◌, ◌↔◌, ◌<◌, ◌≤◌, ◌^◌, ℕ, ℤ, IfOk, OnOk, length};
ghost use Rattle.std.specs.List.{AllByRecursion};
ghost use Rattle.lin_rows.specs.Rows.{Holds, RowsBelow};
ghost use Rattle.nwa_base.specs.Automata.{IsAutomaton};
ghost use Rattle.nwa_base.specs.Acceptance.{Accepts};
ghost use Rattle.letter_acts.specs.Feasible.{IsFeasible};
ghost use Rattle.letter_acts.specs.Invariant.{alphabet_of};
ghost use Rattle.letter_acts.specs.Kept.{Keeps};
ghost use Rattle.path_rows.specs.Paths.{IsPathOf, path_of, start_frame};
ghost use Rattle.path_rows.specs.Drafts.{IsDone};

use crate::drafts::Draft;
use crate::paths::PathSystem;
use boogie_tree::{Column, VarInfo};
use letter_acts::Icfg;
use lin_rows::system;
use nwa_base::Word;
use std::alloc::{AllocError, Global};

/// The rows of a word that the automaton accepts, which hold at some whole point exactly where the word is feasible. No
/// memory is left for a word of 2^32 letters or more, or with more than 2^32 columns: no number tells them apart.
/// Its time and its room are those of the rows and of the frames' widths along the word.
pub fn rows_of(alloc: Global, icfg: &Icfg, word: &Word) -> Result<PathSystem, AllocError>
    requires { Accepts icfg.now.automaton word.now }
    ensures word { IfOk result (λ p. p.word ≡ word.now) }
    ensures value { IfOk result (IsPathOf icfg.now) }
    ensures exact { IfOk result (λ p. ((point : ℕ → ℤ) × AllByRecursion (Holds point) p.rows) ↔ IsFeasible (alphabet_of icfg.now) word.now) }
    ensures letters { OnOk result (length word.now < 2 ^ 32) }
    ensures columns { IfOk result (λ p. length p.column_at ≤ 2 ^ 32) }
{
    let draft = read_word(alloc, icfg, word)?;
    finished(icfg, word, draft)
}

/// The frame at the start.
fn frame_at_start(icfg: &Icfg) -> &[(Column, VarInfo)]
    ensures value { result.now ≡ start_frame icfg.now }
    ensures valid { Keeps icfg.now }
    ensures automaton { IsAutomaton icfg.now.automaton }
{
    let nwa = icfg.nwa();
    let _states = nwa.states();
    let start = nwa.start();
    let procs = icfg.place_procs();
    icfg.columns(procs[start as usize])
}

/// Reads a word to its end.
fn read_word(alloc: Global, icfg: &Icfg, word: &Word) -> Result<Draft, AllocError>
    requires { Accepts icfg.now.automaton word.now }
    ensures done { IfOk result (λ d. IsDone d (path_of icfg.now word.now)) }
    ensures letters { OnOk result (length word.now < 2 ^ 32) }
    ensures columns { IfOk result (λ d. length d.column_at.items ≤ 2 ^ 32) }
    ensures within { IfOk result (λ d. RowsBelow (length d.column_at.items) d.rows.items) }
{
    let letters = word.letters();
    if letters.len() > u32::MAX as usize {
        return Err(AllocError);
    }
    let mut draft = Draft::start(alloc, frame_at_start(icfg))?;
    for i in 0..letters.len() {
        draft.read(alloc, icfg, letters[i], (i + 1) as u32)?;
    }
    Ok(draft)
}

/// The path of a word that was read to its end.
fn finished(icfg: &Icfg, word: &Word, draft: Draft) -> Result<PathSystem, AllocError>
    requires accepted { Accepts icfg.now.automaton word.now }
    requires done { IsDone draft (path_of icfg.now word.now) }
    requires columns { length draft.column_at.items ≤ 2 ^ 32 }
    requires within { RowsBelow (length draft.column_at.items) draft.rows.items }
    ensures word { IfOk result (λ p. p.word ≡ word.now) }
    ensures value { IfOk result (IsPathOf icfg.now) }
    ensures exact { IfOk result (λ p. ((point : ℕ → ℤ) × AllByRecursion (Holds point) p.rows) ↔ IsFeasible (alphabet_of icfg.now) word.now) }
    ensures columns { IfOk result (λ p. length p.column_at ≤ 2 ^ 32) }
{
    let nwa = icfg.nwa();
    let _states = nwa.states();
    let alloc = *draft.rows.allocator();
    let mut states = draft.states;
    states.push(draft.here)?;
    let letters = word.copy()?;
    let groups = Vec::new(alloc);
    let rows = system(draft.rows, groups);
    let path = PathSystem::new(letters, rows, draft.row_at, draft.column_at, states);
    Ok(path)
}

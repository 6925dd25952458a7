//! The steps of a word's letters.

ghost use Rattle.std.specs.Prelude.{◌≡◌, suc, IfOk, List, IsSome, length, reverse};
ghost use Rattle.std.specs.List.{AllByRecursion};
ghost use Rattle.nwa_base.specs.declared.letters.Letter.{Letter};
ghost use Rattle.letter_acts.specs.Acts.{act_of};
ghost use Rattle.letter_acts.specs.Invariant.{alphabet_of};
ghost use Rattle.path_rows.specs.Paths.{IsPathOf};
ghost use Rattle.farkas_check.specs.Trees.{Tree};
ghost use Rattle.nested_itp.specs.NestedPredicates.Stamps.{stamps_of};
ghost use Rattle.nested_itp.specs.NestedPredicates.Positions.{Position, has_return};
ghost use Rattle.nested_itp.specs.NestedPredicates.Walking.{return_tests};
ghost use Rattle.nested_itp.specs.NestedRefutations.Numbers as numbers;
ghost use Rattle.nested_itp.specs.NestedRefutations.Numbers.{position_here, steps_of};
ghost use Rattle.nested_itp.specs.TripleSteps.Steps.{FitColumns, AreSteps};
ghost use Rattle.nested_itp.specs.TripleSteps.Ties.Readings.{IsAt, IsReading, FindsCall, IsStepBy, IsReturnOf, IsStepBack};

use crate::nested_predicates::acts::{act_at, start_proc};
use crate::triple_steps::columns::Columns;
use crate::triple_steps::letters::{back_step, call_step, inside_step};
use crate::triple_steps::readings::{OpenCall, Reading};
use crate::triple_steps::sections::Section;
use letter_acts::{Act, Icfg};
use nwa_base::Letter;
use path_rows::PathSystem;
use std::alloc::{AllocError, Global};

/// What the system of a letter's triple consists of.
#[derive(Drop)]
pub struct Step {
    /// The positions of its sources: that before the letter, and of a return that before its call.
    pub sources: Vec<usize>,
    /// The position behind the letter.
    pub target: usize,
    /// The letter is a call that has a return in the word: the refutation follows the target alone.
    pub returns: bool,
    /// Where the word's columns stand.
    pub columns: Columns,
    /// The rows, in order.
    pub sections: Vec<Section>,
}

/// The steps of a word's letters, in order, where the tests tell of each letter whether a call in its place has a return.
pub fn steps(
    alloc: Global,
    icfg: &Icfg,
    path: &PathSystem,
    returned: &[bool],
) -> Result<Vec<Step>, AllocError>
    requires path { IsPathOf icfg.now path.now }
    requires returned { returned.now ≡ return_tests path.now.word }
    ensures steps { IfOk result (λ v. (t : Tree) → AreSteps icfg.now path.now.word t (steps_of icfg.now path.now.word t) v.items) }
    ensures count { IfOk result (λ v. length v.items ≡ length path.now.word) }
    ensures fit { IfOk result (λ v. AllByRecursion (λ s. FitColumns (length (stamps_of icfg.now path.now.word).columns) s.columns) v.items) }
{
    let _valid = icfg.acts();
    let letters = path.word().letters();
    let total = path.column_at().len();
    let mut reading = Reading::start(alloc, icfg.columns(start_proc(icfg)));
    let mut steps = Vec::with_capacity(alloc, letters.len())?;
    for i in 0..letters.len() {
        let step = step_of(alloc, icfg, &reading, total, letters[i], returned[i])?;
        steps.push(step)?;
        reading.go_on(icfg, letters[i])?;
    }
    Ok(steps)
}

/// That of the letter that is read next, in a word with so many columns.
fn step_of(
    alloc: Global,
    icfg: &Icfg,
    reading: &Reading,
    total: usize,
    letter: Letter,
    returns: bool,
) -> Result<Step, AllocError>
    requires letter { IsSome (act_of (alphabet_of icfg.now) letter) }
    requires finds { FindsCall letter.kind (reverse reading.now.calls.items) }
    ensures step { IfOk result (λ f. (w : List Letter) (t : Tree) (rest : List Letter) (r : numbers.Reading) (to : Position) → IsReading icfg.now w r reading.now → IsAt icfg.now w r.letters (position_here r) → IsAt icfg.now w (suc r.letters) to → returns ≡ has_return 0 rest → IsStepBy icfg.now w t letter rest r to f) }
    ensures fit { IfOk result (λ f. FitColumns total f.columns) }
{
    let _valid = icfg.acts();
    match act_at(icfg, letter) {
        Act::Inside {
            proc,
            written,
            helpers,
            rows,
            ..
        } => {
            let frame = icfg.columns(*proc);
            inside_step(alloc, reading, total, frame, written, *helpers, rows.len())
        }
        Act::Call {
            caller,
            callee,
            helpers,
            rows,
            ..
        } => {
            let caller = icfg.columns(*caller);
            let callee = icfg.columns(*callee);
            call_step(
                alloc,
                reading,
                total,
                returns,
                caller,
                callee,
                *helpers,
                rows.len(),
            )
        }
        Act::Back { call, targets } => {
            let Some(opened) = reading.calls.last() else {
                unreachable!()
            };
            step_back(alloc, icfg, reading, total, *opened, *call, targets)
        }
    }
}

/// That of a return with these targets from an open call by the letter with this number.
fn step_back(
    alloc: Global,
    icfg: &Icfg,
    reading: &Reading,
    total: usize,
    opened: OpenCall,
    call: u32,
    targets: &[u32],
) -> Result<Step, AllocError>
    requires { IsReturnOf (alphabet_of icfg.now) call targets.now }
    ensures step { IfOk result (IsStepBack icfg.now reading.now opened call targets.now) }
    ensures fit { IfOk result (λ f. FitColumns total f.columns) }
{
    match icfg.acts().get(call as usize) {
        Some(
            Act::Call {
                caller,
                callee,
                helpers,
                rows,
                ..
            },
        ) => {
            let caller = icfg.columns(*caller);
            let callee = icfg.columns(*callee);
            back_step(
                alloc,
                reading,
                total,
                opened,
                caller,
                callee,
                *helpers,
                rows.len(),
                targets,
            )
        }
        Some(Act::Inside { .. }) | Some(Act::Back { .. }) | None => unreachable!(),
    }
}

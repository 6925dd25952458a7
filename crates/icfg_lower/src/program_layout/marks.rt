//! Where the numbers of procedures begin.

ghost use Rattle.std.specs.Prelude.{◌≡◌, ◌+◌, ◌<◌, ◌^◌, map, length, slice_get, IfOk};
ghost use Rattle.typed_tree.specs.TypedView as view;
ghost use Rattle.typed_tree.specs.TypingRules.Counts.{all_places, body_assertions, body_points};
ghost use Rattle.boogie_run.specs.BoogiePoints.Actions.{assertions_before, points_before};
ghost use Rattle.icfg_lower.specs.ProgramLayout.Layouts.{marks_from, marks_with};

use boogie_run::boogie_points::counts::{
    all_ensures, block_assertions, block_points, granted, plain_ensures,
};
use std::alloc::{AllocError, Global};
use typed_tree::TProc;

/// Where the numbers of a procedure begin.
#[derive(Clone, Copy)]
pub struct Marks {
    /// Of its first assertion.
    pub first: u32,
    /// Of its first place, at which it begins.
    pub entry: u32,
    /// Of the first place of its statements.
    pub body: u32,
    /// Of its first assertion behind the statements.
    pub behind: u32,
    /// Of the first place behind its statements.
    pub exit: u32,
    /// Of the place at which it returns.
    pub returns: u32,
    /// Of the first place that is no longer its own.
    pub end: u32,
    /// Of the first assertion that is no longer its own.
    pub last: u32,
}

/// Where the numbers of a procedure begin, with its first assertion and place.
#[tactic(auto, using(crate::proofs::ProgramLayout::CountLaws::counted))]
fn marks_of(procs: &[TProc], counted: &TProc, first: u32, entry: u32) -> Marks
    requires assertions { first + body_assertions (map view.procedure procs.now) (view.procedure counted.now).specs (view.procedure counted.now).body < 2 ^ 32 }
    requires places { entry + body_points (map view.procedure procs.now) (view.procedure counted.now).specs (view.procedure counted.now).body < 2 ^ 32 }
    ensures value { result ≡ marks_with (map view.procedure procs.now) (view.procedure counted.now) first entry (view.procedure counted.now).body }
    ensures end { result.end ≡ entry + body_points (map view.procedure procs.now) (view.procedure counted.now).specs (view.procedure counted.now).body }
    ensures last { result.last ≡ first + body_assertions (map view.procedure procs.now) (view.procedure counted.now).specs (view.procedure counted.now).body }
{
    let Some(statements) = &counted.body else {
        return Marks {
            first,
            entry,
            body: entry,
            behind: first,
            exit: entry,
            returns: entry,
            end: entry,
            last: first,
        };
    };
    let body = entry + granted(&counted.specs) as u32;
    let behind = first + block_assertions(procs, statements);
    let exit = body + block_points(procs, statements);
    let returns = exit + all_ensures(&counted.specs);
    Marks {
        first,
        entry,
        body,
        behind,
        exit,
        returns,
        end: returns + 1,
        last: behind + plain_ensures(&counted.specs),
    }
}

/// Where the numbers of each procedure begin, and the first place and assertion behind all of them.
#[derive(Drop)]
pub(crate) struct Marked {
    pub(crate) marks: Vec<Marks>,
    pub(crate) place: u32,
    pub(crate) assertion: u32,
}

/// Where the numbers of each procedure begin, with the first place of the first one.
pub(crate) fn all_marks(alloc: Global, procs: &[TProc], first: u32) -> Result<Marked, AllocError>
    requires places { first + all_places (map view.procedure procs.now) (map view.procedure procs.now) < 2 ^ 32 }
    requires first { 0 < first }
    ensures marks { IfOk result (λ m. m.marks.items ≡ marks_from (map view.procedure procs.now) 1 first (map view.procedure procs.now)) }
    ensures place { IfOk result (λ m. m.place ≡ first + points_before (map view.procedure procs.now) (map view.procedure procs.now) (length procs.now)) }
    ensures assertion { IfOk result (λ m. m.assertion ≡ 1 + assertions_before (map view.procedure procs.now) (map view.procedure procs.now) (length procs.now)) }
{
    let mut marks = Vec::with_capacity(alloc, procs.len())?;
    let mut place = first;
    let mut assertion = 1;
    for counted in procs {
        let found = marks_of(procs, counted, assertion, place);
        place = found.end;
        assertion = found.last;
        marks.push(found)?;
    }
    Ok(Marked {
        marks,
        place,
        assertion,
    })
}

/// Where the numbers of the procedure of that number begin.
pub(crate) fn marks_in(marks: &[Marks], number: u32) -> Option<Marks>
    ensures { result ≡ slice_get marks.now number }
{
    marks.get(number as usize).copied()
}

//! Candidates, tried letter by letter until all are settled: proved, or not refuted without cuts.

ghost use Rattle.std.specs.Prelude.{◌≡◌, ◌+◌, ◌<◌, ◌++◌, [], ℕ, IfOk, OnOk, length};
ghost use Rattle.std.specs.List.{AllByRecursion, filter_map};
ghost use Rattle.letter_acts.specs.Invariant.{alphabet_of};
ghost use Rattle.triple_rows.specs.Triples.{Agrees};
ghost use Rattle.proof_form.specs.Annotations.{Content};
ghost use Rattle.proof_reuse.specs.Ties.Choices.{IsTakenFrom};
ghost use Rattle.proof_reuse.specs.Ties.Settling.{IsSettling};
ghost use Rattle.proof_reuse.specs.Ties.Views.{taken};

use crate::limits::{MOST_CANDIDATES, left_of};
use crate::picking::candidates_by;
use crate::taking::Earlier;
use hoare_check::prove_all;
use letter_acts::Icfg;
use std::alloc::{AllocError, Global};
use std::mem::replace;
use std::thread::Threads;
use triple_rows::{Proof, Triple};

/// How many candidates are tried together, at least, but for the last ones: each time threads are started.
const MANY: usize = 4096;

/// Candidates that wait to be tried, and the proofs so far.
#[derive(Drop)]
struct Work {
    /// The candidates.
    waiting: Vec<Triple>,
    /// The proofs.
    proofs: Vec<Proof>,
    /// How many more candidates are tried at most.
    left: usize,
}

/// Adds the proofs that were found.
fn keep(tried: Vec<Option<Proof>>, proofs: &mut Vec<Proof>) -> Result<(), AllocError>
    ensures { OnOk result (proofs.new.items ≡ proofs.old.items ++ filter_map (λ o. o) tried.items) }
{
    for answer in tried {
        if let Some(proof) = answer {
            proofs.push(proof)?;
        }
    }
    Ok(())
}

/// Tries what waits, and adds the proofs of what is proved.
fn settle<R: Threads + Sync>(
    rt: &R,
    alloc: Global,
    icfg: &Icfg,
    work: &mut Work,
) -> Result<(), AllocError>
    requires { AllByRecursion (Agrees (alphabet_of icfg.now)) work.old.waiting.items }
    ensures settles { OnOk result ((old : Content) (n : ℕ) → IsSettling icfg.now old n work.old.waiting.items work.old.proofs.items → IsSettling icfg.now old n work.new.waiting.items work.new.proofs.items) }
    ensures none { OnOk result (work.new.waiting.items ≡ []) }
{
    let waiting = replace(&mut work.waiting, Vec::new(alloc));
    let tried = prove_all(rt, alloc, icfg, waiting)?;
    keep(tried, &mut work.proofs)?;
    Ok(())
}

/// Tries what waits, where it is much.
fn settle_many<R: Threads + Sync>(
    rt: &R,
    alloc: Global,
    icfg: &Icfg,
    work: &mut Work,
) -> Result<(), AllocError>
    requires { AllByRecursion (Agrees (alphabet_of icfg.now)) work.old.waiting.items }
    ensures settles { OnOk result ((old : Content) (n : ℕ) → IsSettling icfg.now old n work.old.waiting.items work.old.proofs.items → IsSettling icfg.now old n work.new.waiting.items work.new.proofs.items) }
    ensures agree { OnOk result (AllByRecursion (Agrees (alphabet_of icfg.now)) work.new.waiting.items) }
{
    if work.waiting.len() < MANY {
        return Ok(());
    }
    settle(rt, alloc, icfg, work)
}

/// Lets the candidates by a letter wait, and tries them where they are many.
fn settle_letter<R: Threads + Sync>(
    rt: &R,
    alloc: Global,
    icfg: &Icfg,
    earlier: &Earlier,
    letter: u32,
    work: &mut Work,
) -> Result<(), AllocError>
    requires letter { letter < length icfg.now.acts }
    requires agree { AllByRecursion (Agrees (alphabet_of icfg.now)) work.old.waiting.items }
    ensures settles { OnOk result ((old : Content) → IsTakenFrom icfg.now old (taken earlier.now) → IsSettling icfg.now old letter work.old.waiting.items work.old.proofs.items → IsSettling icfg.now old (letter + 1) work.new.waiting.items work.new.proofs.items) }
    ensures agree { OnOk result (AllByRecursion (Agrees (alphabet_of icfg.now)) work.new.waiting.items) }
{
    let mut candidates = candidates_by(alloc, icfg, earlier, letter)?;
    work.left = left_of(work.left, candidates.len())?;
    work.waiting.append(&mut candidates)?;
    settle_many(rt, alloc, icfg, work)?;
    Ok(())
}

/// Settles the candidates by all letters, of which there are so many.
fn settle_letters<R: Threads + Sync>(
    rt: &R,
    alloc: Global,
    icfg: &Icfg,
    earlier: &Earlier,
    count: u32,
    work: &mut Work,
) -> Result<(), AllocError>
    requires count { count ≡ length icfg.now.acts }
    requires waiting { work.old.waiting.items ≡ [] }
    requires proofs { work.old.proofs.items ≡ [] }
    ensures { OnOk result ((old : Content) → IsTakenFrom icfg.now old (taken earlier.now) → IsSettling icfg.now old (length icfg.now.acts) [] work.new.proofs.items) }
{
    for letter in 0..count {
        settle_letter(rt, alloc, icfg, earlier, letter, work)?;
    }
    settle(rt, alloc, icfg, work)?;
    Ok(())
}

/// The proofs of candidates by all letters, among them one of each that Decide refutes without cuts.
pub(crate) fn settle_all<R: Threads + Sync>(
    rt: &R,
    alloc: Global,
    icfg: &Icfg,
    earlier: &Earlier,
) -> Result<Vec<Proof>, AllocError>
    ensures { IfOk result (λ proofs. (old : Content) → IsTakenFrom icfg.now old (taken earlier.now) → IsSettling icfg.now old (length icfg.now.acts) [] proofs.items) }
{
    let Ok(count) = u32::try_from(icfg.acts().len()) else {
        return Err(AllocError);
    };
    let mut work = Work {
        waiting: Vec::new(alloc),
        proofs: Vec::new(alloc),
        left: MOST_CANDIDATES,
    };
    settle_letters(rt, alloc, icfg, earlier, count, &mut work)?;
    Ok(work.proofs)
}

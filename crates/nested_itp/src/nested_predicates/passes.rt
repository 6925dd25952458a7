//! The sums of a leaf along a word.

ghost use Rattle.std.specs.Prelude.{◌≡◌, ℕ, pos, ◌-ℤ◌, [], ◌∷◌, ◌++◌, Err, IsSome, IfOk, OnOk, map, reverse};
ghost use Rattle.std.specs.List.{AllByRecursion};
ghost use Rattle.math_facts.specs.Fits.{Fits};
ghost use Rattle.lin_rows.specs.Rows.{IsRow};
ghost use Rattle.lin_rows.specs.Combinations.{Contradicts};
ghost use Rattle.letter_acts.specs.Acts.{act_of, frame_of};
ghost use Rattle.letter_acts.specs.Invariant.{alphabet_of};
ghost use Rattle.path_rows.specs.Paths.{IsPathOf, path_of};
ghost use Rattle.nested_itp.specs.NestedPredicates.Wides.{value_of};
ghost use Rattle.nested_itp.specs.NestedPredicates.Positions.{positions_of, known_columns, callee_of};
ghost use Rattle.nested_itp.specs.NestedPredicates.Sums.{terms_from, inequality};
ghost use Rattle.nested_itp.specs.NestedPredicates.Runnings.{value_at, AreCounted, PartsFit, AddsParts, differences};
ghost use Rattle.nested_itp.specs.NestedPredicates.Bases.{AreMade, CanRead, IsNothing, Enters, first_columns, first_bound, node_of};
ghost use Rattle.nested_itp.specs.NestedPredicates.Fitting.{SumNumbersFit};
ghost use Rattle.nested_itp.specs.NestedPredicates.Layouts.{IsLayout, leaf_node, HasStamps};

use crate::nested_predicates::bases::{Base, enter, sum_in};
use crate::nested_predicates::faults::ItpFault;
use crate::nested_predicates::layout::Layout;
use crate::nested_predicates::leaves::parts_by_stamp;
use crate::nested_predicates::running::Running;
use crate::nested_predicates::versions::{versions_at, width};
use letter_acts::Icfg;
use lin_rows::{Col, Row};
use nwa_base::Letter;
use path_rows::PathSystem;
use std::alloc::{AllocError, Global};
use triple_rows::PredNode;

/// The sums of a leaf with these parts over the rows of its branch, which have these stamps, one for each position.
pub(crate) fn leaf_sums(
    alloc: Global,
    icfg: &Icfg,
    path: &PathSystem,
    layout: &Layout,
    rows: &[Row],
    stamps: &[u64],
    parts: &[(u32, i128)],
) -> Result<Vec<PredNode>, ItpFault>
    requires path { IsPathOf icfg.now path.now }
    requires layout { IsLayout icfg.now path.now.word layout.now }
    requires rows { AllByRecursion IsRow rows.now }
    requires leaf { Contradicts rows.now parts.now }
    requires stamped { HasStamps (record { rows = rows.now; stamps = stamps.now }) }
    ensures value { IfOk result (λ v. v.items ≡ map (leaf_node (record { rows = rows.now; stamps = stamps.now }) parts.now) (positions_of icfg.now path.now.word)) }
    ensures past { result ≡ Err ItpFault.Past → AllByRecursion (SumNumbersFit (record { rows = rows.now; stamps = stamps.now }) parts.now) (positions_of icfg.now path.now.word) → ⊥ }
{
    let mut pass = Pass::start(alloc, path.states())?;
    pass.read_word(alloc, icfg, path, layout, rows, stamps, parts)?;
    Ok(pass.sums)
}

/// The sums of a leaf at the positions so far, and what the next one is read off.
#[derive(Drop)]
struct Pass {
    running: Running,
    /// What the callers' sums had, of the frames that are open, the innermost last.
    frames: Vec<Base>,
    sums: Vec<PredNode>,
}

impl Pass {
    /// Before the first position of a word with these versions.
    fn start(alloc: Global, states: &[Vec<Col>]) -> Result<Pass, AllocError>
        ensures made { IfOk result (λ p. AllByRecursion (AreMade p.running.columns.items) (map (λ v. v.items) states.now)) }
        ensures columns { IfOk result (λ p. (v : ℕ) → value_at p.running.columns.items v ≡ pos 0) }
        ensures bound { IfOk result (λ p. value_of p.running.bound ≡ pos 0) }
        ensures counted { IfOk result (λ p. AreCounted p.running) }
        ensures frames { IfOk result (λ p. (x : Base) × IsNothing x × (p.frames.items ≡ x ∷ [])) }
        ensures sums { IfOk result (λ p. p.sums.items ≡ []) }
    {
        let mut frames = Vec::new(alloc);
        frames.push(Base::nothing(alloc))?;
        let sums = Vec::with_capacity(alloc, states.len())?;
        let running = Running::start(alloc, width(states))?;
        Ok(Pass {
            running,
            frames,
            sums,
        })
    }

    /// Adds the sums at the positions of a word.
    fn read_word(
        &mut self,
        alloc: Global,
        icfg: &Icfg,
        path: &PathSystem,
        layout: &Layout,
        rows: &[Row],
        stamps: &[u64],
        parts: &[(u32, i128)],
    ) -> Result<(), ItpFault>
        requires path { IsPathOf icfg.now path.now }
        requires layout { IsLayout icfg.now path.now.word layout.now }
        requires rows { AllByRecursion IsRow rows.now }
        requires leaf { Contradicts rows.now parts.now }
        requires stamped { HasStamps (record { rows = rows.now; stamps = stamps.now }) }
        requires made { AllByRecursion (AreMade self.old.running.columns.items) (path_of icfg.now path.now.word).states }
        requires columns { (v : ℕ) → value_at self.old.running.columns.items v ≡ pos 0 }
        requires bound { value_of self.old.running.bound ≡ pos 0 }
        requires counted { AreCounted self.old.running }
        requires frames { (x : Base) × IsNothing x × (self.old.frames.items ≡ x ∷ []) }
        requires sums { self.old.sums.items ≡ [] }
        ensures value { OnOk result (self.new.sums.items ≡ map (leaf_node (record { rows = rows.now; stamps = stamps.now }) parts.now) (positions_of icfg.now path.now.word)) }
        ensures past { result ≡ Err ItpFault.Past → AllByRecursion (SumNumbersFit (record { rows = rows.now; stamps = stamps.now }) parts.now) (positions_of icfg.now path.now.word) → ⊥ }
    {
        let by_stamp = parts_by_stamp(alloc, stamps, parts)?;
        let letters = path.word().letters();
        let states = path.states();
        let returned = layout.returned.as_slice();
        self.add_sum(alloc, versions_at(states, 0))?;
        for i in 0..letters.len() {
            let before = versions_at(states, i);
            let entry = versions_at(states, i + 1);
            let stamp = 2 * (i as u64 + 1);
            let at_call = by_stamp.of(&stamp);
            self.enter(
                alloc,
                icfg,
                rows,
                at_call,
                letters[i],
                returned[i],
                before,
                entry,
            )?;
            self.come_to(alloc, rows, by_stamp.of(&(stamp + 1)), entry)?;
        }
        Ok(())
    }

    /// Adds the rows of these parts, and goes on by a letter with these versions before and after it.
    fn enter(
        &mut self,
        alloc: Global,
        icfg: &Icfg,
        rows: &[Row],
        parts: &[(u32, i128)],
        letter: Letter,
        returns: bool,
        before: &[Col],
        entry: &[Col],
    ) -> Result<(), AllocError>
        requires fit { PartsFit rows.now parts.now }
        requires letter { IsSome (act_of (alphabet_of icfg.now) letter) }
        requires counted { AreCounted self.old.running }
        requires entry { AreMade self.old.running.columns.items entry.now }
        requires before { AreMade self.old.running.columns.items before.now }
        requires frames { AllByRecursion CanRead self.old.frames.items }
        ensures adds { OnOk result (AddsParts rows.now parts.now self.old.running self.new.running) }
        ensures value { OnOk result (Enters letter.kind returns (known_columns (frame_of (alphabet_of icfg.now) (callee_of (act_of (alphabet_of icfg.now) letter))) entry.now before.now) self.new.running (reverse self.old.frames.items) (reverse self.new.frames.items)) }
        ensures frames { OnOk result (AllByRecursion CanRead self.new.frames.items) }
        ensures sums { self.new.sums ≡ self.old.sums }
    {
        self.running.add_parts(rows, parts)?;
        enter(
            alloc,
            icfg,
            &mut self.frames,
            &self.running,
            letter,
            returns,
            before,
            entry,
        )
    }

    /// Adds the rows of these parts, and the sum at a position with these versions.
    fn come_to(
        &mut self,
        alloc: Global,
        rows: &[Row],
        parts: &[(u32, i128)],
        here: &[Col],
    ) -> Result<(), ItpFault>
        requires fit { PartsFit rows.now parts.now }
        requires counted { AreCounted self.old.running }
        requires frames { AllByRecursion CanRead self.old.frames.items }
        requires here { AreMade self.old.running.columns.items here.now }
        ensures adds { OnOk result (AddsParts rows.now parts.now self.old.running self.new.running) }
        ensures frames { self.new.frames ≡ self.old.frames }
        ensures value { OnOk result (self.new.sums.items ≡ self.old.sums.items ++ node_of (inequality (terms_from 0 (differences self.new.running.columns.items (first_columns (reverse self.old.frames.items)) here.now)) (value_of self.new.running.bound -ℤ first_bound (reverse self.old.frames.items))) ∷ []) }
        ensures reached { result ≡ Err ItpFault.Past → AddsParts rows.now parts.now self.old.running self.new.running }
        ensures past { result ≡ Err ItpFault.Past → AllByRecursion Fits (differences self.new.running.columns.items (first_columns (reverse self.old.frames.items)) here.now) → Fits (value_of self.new.running.bound -ℤ first_bound (reverse self.old.frames.items)) → ⊥ }
    {
        self.running.add_parts(rows, parts)?;
        self.add_sum(alloc, here)
    }

    /// Adds the sum at a position with these versions.
    fn add_sum(&mut self, alloc: Global, here: &[Col]) -> Result<(), ItpFault>
        requires counted { AreCounted self.old.running }
        requires frames { AllByRecursion CanRead self.old.frames.items }
        requires here { AreMade self.old.running.columns.items here.now }
        ensures running { self.new.running ≡ self.old.running }
        ensures frames { self.new.frames ≡ self.old.frames }
        ensures value { OnOk result (self.new.sums.items ≡ self.old.sums.items ++ node_of (inequality (terms_from 0 (differences self.old.running.columns.items (first_columns (reverse self.old.frames.items)) here.now)) (value_of self.old.running.bound -ℤ first_bound (reverse self.old.frames.items))) ∷ []) }
        ensures past { result ≡ Err ItpFault.Past → AllByRecursion Fits (differences self.old.running.columns.items (first_columns (reverse self.old.frames.items)) here.now) → Fits (value_of self.old.running.bound -ℤ first_bound (reverse self.old.frames.items)) → ⊥ }
    {
        self.sums
            .push(sum_in(alloc, &self.running, here, &self.frames)?)?;
        Ok(())
    }
}

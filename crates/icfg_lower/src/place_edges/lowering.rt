//! What has been lowered so far.

ghost use Rattle.std.specs.Prelude.{◌≡◌, OnOk};
ghost use Rattle.cond_jumps.specs.FreeProducts.LetterView.{marked, all_marked};
ghost use Rattle.letter_acts.specs.Acts.{call_act, inside_act};
ghost use Rattle.letter_acts.specs.LetterTable.Letters.{MarkedAct, call_arc, inside_arc, with_arc, with_arcs};
ghost use Rattle.lowered_graph.specs.LoweredParts.Lists.{list_arcs};

use crate::place_edges::columns::numbers;
use crate::place_edges::faults::{ItemFault, Trouble, earlier, fault_of};
use crate::program_layout::{Layout, Marks};
use boogie_tree::{Column, Span, VarInfo};
use cond_jumps::free_products::MarkedConj;
use letter_acts::letter_table::{CallEdges, CallStep, InsideStep, Table};
use letter_acts::{AssertId, Frame, Site};
use std::alloc::{AllocError, Global};
use std::marker::Model;

/// A place of a procedure, from which edges lead.
#[derive(Clone, Copy)]
pub struct Here {
    pub proc: u32,
    pub place: u32,
}

/// The letters, edges and assertions of what has been lowered, and the fault of the first item in the text that has one.
#[derive(Drop)]
pub struct Lowering<'a> {
    alloc: Global,
    layout: &'a Layout<'a>,
    table: Table,
    sites: Vec<Site>,
    fault: Option<ItemFault>,
}

/// What a lowering holds at the end.
#[derive(Drop)]
pub struct Lowered {
    pub table: Table,
    pub sites: Vec<Site>,
    pub fault: Option<ItemFault>,
}

impl<'a> Model for Lowering<'a> {
    ghost use Rattle.std.specs.Coded.{codes};
    ghost use Rattle.typed_tree.specs.contracts.types.TExpr as expr;
    ghost use Rattle.typed_tree.specs.contracts.types.TStmt as stmt;
    ghost use Rattle.icfg_lower.specs.PlaceEdges.WalkedParts.{WalkedParts};
    ghost use Rattle.icfg_lower.specs.PlaceEdges.Faults.{plain_faults};

    ghost Value = { WalkedParts };

    ghost coded = { Prim.hlevel (codes, expr.the_row.coded, stmt.the_row.coded) };

    ghost view = { λ l. record { parts = l.layout.now; lettered = l.table; sites = l.sites.items; fault = plain_faults l.fault } };
}

/// One more edge for a letter, which writes these columns.
fn add_letter(
    alloc: Global,
    table: &mut Table,
    here: Here,
    written: &[u32],
    letter: MarkedConj,
    to: u32,
) -> Result<(), AllocError>
    ensures { OnOk result (table.new ≡ with_arc table.old (inside_arc here.place (record { act = inside_act here.proc written.now (marked letter).plain.helpers (marked letter).plain.rows; coarse = letter.coarse }) to)) }
{
    let step = InsideStep {
        proc: here.proc,
        written: Vec::from_slice(alloc, written)?,
        helpers: letter.conj.helpers,
        rows: letter.conj.rows,
        coarse: letter.coarse,
    };
    table.add_inside(here.place, step, to)
}

/// An edge for each letter of a list, which writes these columns.
#[tactic(auto, using(crate::proofs::PlaceEdges::LeadLemmas::letter_joined))]
fn add_list(
    alloc: Global,
    table: &mut Table,
    here: Here,
    written: &[u32],
    list: Vec<MarkedConj>,
    to: u32,
) -> Result<(), AllocError>
    ensures { OnOk result (table.new ≡ with_arcs table.old (list_arcs here.proc here.place written.now (all_marked list.items) to)) }
{
    for letter in list {
        add_letter(alloc, table, here, written, letter, to)?;
    }
    Ok(())
}

impl<'a> Lowering<'a> {
    ghost use Rattle.std.specs.Prelude.{◌<◌, ◌≤◌, ℕ, Some, [], ◌∷◌, ◌++◌, false, length, IfOk, OnOk, IsSome, slice_get};
    ghost use Rattle.std.specs.List.{AllByRecursion};
    ghost use Rattle.typed_tree.specs.TypedTree.{TypedProcedure};
    ghost use Rattle.typed_tree.specs.TypingRules.TypedParts.{typed_program};
    ghost use Rattle.lowered_graph.specs.Arcs.{error_place};
    ghost use Rattle.lowered_graph.specs.Items.{earlier};
    ghost use Rattle.lowered_graph.specs.Lowered.{program_sites};
    ghost use Rattle.lowered_graph.specs.LoweredParts.Parts.{nothing_yet, Leads};
    ghost use Rattle.lowered_graph.specs.LoweredParts.Lists.{skip_arcs};
    ghost use Rattle.lowered_graph.specs.LoweredSteps.ProgramFrames.{frame_at};
    ghost use Rattle.lowered_graph.specs.LoweredSteps.Edges.{columns_before_locals, local_count, numbers_in};
    ghost use Rattle.icfg_lower.specs.ProgramLayout.Layouts.{StandsIn, marks_of};
    ghost use Rattle.icfg_lower.specs.PlaceEdges.Faults.{fault_of, plain_faults};
    ghost use Rattle.icfg_lower.specs.PlaceEdges.WalkedParts.{walked};

    /// Nothing yet.
    pub fn new(alloc: Global, layout: &'a Layout<'a>) -> Self
        ensures program { result.parts ≡ layout.now }
        ensures nothing { walked result ≡ nothing_yet (typed_program layout.now) }
    {
        Lowering {
            alloc,
            layout,
            table: Table::new(alloc),
            sites: Vec::new(alloc),
            fault: None,
        }
    }

    /// The allocator.
    pub fn alloc(&self) -> Global {
        self.alloc
    }

    /// The layout of the program.
    pub fn layout(&self) -> &'a Layout<'a>
        ensures { result.now ≡ self.now.parts }
    {
        self.layout
    }

    /// The frame of a procedure.
    pub(crate) fn frame(&self, proc: u32) -> &'a Frame
        requires { IsSome (slice_get (typed_program self.now.parts).procs proc) }
        ensures { result.now.columns.items ≡ frame_at (typed_program self.now.parts) proc }
    {
        self.layout.frame(proc).unwrap()
    }

    /// Where the numbers of a procedure begin.
    pub(crate) fn marks(&self, proc: u32) -> Marks
        requires { IsSome (slice_get (typed_program self.now.parts).procs proc) }
        ensures { (q : TypedProcedure) → slice_get (typed_program self.now.parts).procs proc ≡ Some q → result ≡ marks_of (typed_program self.now.parts) (proc, q) }
    {
        self.layout.marks(proc).unwrap()
    }

    /// How many columns stand before the locals of a frame.
    pub(crate) fn before_locals(&self) -> u32
        ensures { result ≡ columns_before_locals (typed_program self.now.parts) }
    {
        self.layout.before_locals()
    }

    /// How many locals a procedure has.
    pub(crate) fn local_count(&self, proc: u32) -> u32
        requires { IsSome (slice_get (typed_program self.now.parts).procs proc) }
        ensures { result ≡ local_count (typed_program self.now.parts) proc }
    {
        self.layout.local_count(proc).unwrap()
    }

    /// The constants and globals.
    pub(crate) fn globals(&self) -> &'a [VarInfo]
        ensures { result.now ≡ self.now.parts.globals }
    {
        self.layout.program().globals()
    }

    /// The numbers of columns in the frame of every procedure that has them.
    pub(crate) fn columns(&self, columns: &[Column]) -> Result<Vec<u32>, AllocError>
        requires { (n : ℕ) × AllByRecursion (StandsIn (frame_at (typed_program self.now.parts) n)) columns.now }
        ensures { (n : ℕ) → AllByRecursion (StandsIn (frame_at (typed_program self.now.parts) n)) columns.now →
            IfOk result (λ found. found.items ≡ numbers_in (frame_at (typed_program self.now.parts) n) columns.now) }
    {
        numbers(self.alloc, self.layout, columns)
    }

    /// What is wrong with the item that stands there.
    pub fn note(&mut self, span: Span, trouble: Trouble)
        ensures { self.new ≡ record self.old { fault = earlier self.old.fault (fault_of span trouble.wide trouble.big) } }
    {
        self.fault = earlier(self.fault, fault_of(span, trouble));
    }

    /// An assertion of that number, whose keyword stands there.
    pub fn assertion(&mut self, number: u32, span: Span) -> Result<(), AllocError>
        requires first { 0 < number }
        requires last { number ≤ length (program_sites (typed_program self.old.parts)) }
        ensures { OnOk result (self.new ≡ record self.old { sites = self.old.sites ++ record { id = record { number = number; line = span.line }; place = error_place (typed_program self.old.parts) number } ∷ [] }) }
    {
        let site = Site {
            id: AssertId {
                number,
                line: span.line,
            },
            place: self.layout.error_place(number),
        };
        self.sites.push(site)?;
        Ok(())
    }

    /// An edge by an inside act.
    pub fn step(&mut self, from: u32, step: InsideStep, to: u32) -> Result<(), AllocError>
        ensures { OnOk result (self.new ≡ record self.old { lettered = with_arc self.old.lettered (inside_arc from (record { act = inside_act step.proc step.written.items step.helpers step.rows.items; coarse = step.coarse }) to) }) }
    {
        self.table.add_inside(from, step, to)
    }

    /// An edge for each letter of a list, which writes these columns.
    pub(crate) fn lead(
        &mut self,
        here: Here,
        written: &[u32],
        list: Vec<MarkedConj>,
        to: u32,
    ) -> Result<(), AllocError>
        ensures { OnOk result (self.new ≡ record self.old { lettered = with_arcs self.old.lettered (list_arcs here.proc here.place written.now (all_marked list.items) to) }) }
    {
        add_list(self.alloc, &mut self.table, here, written, list, to)
    }

    /// An edge that writes these columns, with any values.
    pub fn skip(&mut self, here: Here, written: &[u32], to: u32) -> Result<(), AllocError>
        ensures { OnOk result (Leads (skip_arcs here.proc here.place written.now to) [] false false (walked self.old) (walked self.new)) }
    {
        let step = InsideStep {
            proc: here.proc,
            written: Vec::from_slice(self.alloc, written)?,
            helpers: 0,
            rows: Vec::new(self.alloc),
            coarse: false,
        };
        self.table.add_inside(here.place, step, to)
    }

    /// A call with its return, which goes to these targets.
    pub(crate) fn call(
        &mut self,
        step: CallStep,
        targets: Vec<u32>,
        edges: CallEdges,
    ) -> Result<(), AllocError>
        ensures { OnOk result (self.new ≡ record self.old {
          lettered = with_arc self.old.lettered
              (call_arc edges.from (record { act = call_act step.caller step.callee step.helpers step.rows.items; coarse = step.coarse }) edges.to edges.exit targets.items edges.after);
        }) }
    {
        self.table.add_call(step, targets, edges)
    }

    /// The letters and edges, the assertions and the fault.
    pub fn finish(self) -> Lowered
        ensures edges { result.table ≡ self.entry.lettered }
        ensures sites { result.sites.items ≡ self.entry.sites }
        ensures fault { plain_faults result.fault ≡ self.entry.fault }
    {
        let Lowering {
            alloc: _,
            layout: _,
            table,
            sites,
            fault,
        } = self;
        Lowered {
            table,
            sites,
            fault,
        }
    }
}

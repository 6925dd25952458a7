//! The table of letters, and the edges that have letters.

ghost use Rattle.std.specs.Prelude.{◌≡◌, [], map, IfOk, OnOk, OnErr};

use crate::Act;
use crate::letter_table::letters::Letters;
use lin_rows::Row;
use nwa_base::{Kind, Letter};
use std::alloc::{AllocError, Global};
use std::marker::Model;

/// Acts by the numbers of their letters, and edges with their letters.
#[derive(Drop)]
pub struct Table {
    letters: Letters,
    insides: Vec<(u32, Letter, u32)>,
    calls: Vec<(u32, Letter, u32)>,
    backs: Vec<(u32, u32, Letter, u32)>,
}

/// What a table holds at the end: an act for each letter, and the edges.
#[derive(Drop)]
pub struct Lettered {
    pub acts: Vec<Act>,
    pub insides: Vec<(u32, Letter, u32)>,
    pub calls: Vec<(u32, Letter, u32)>,
    pub backs: Vec<(u32, u32, Letter, u32)>,
}

/// A step inside a procedure, as an act has it.
#[derive(Drop)]
pub struct InsideStep {
    pub proc: u32,
    /// The columns of the frame that are written.
    pub written: Vec<u32>,
    /// How many helper columns the rows have.
    pub helpers: u32,
    /// Over the frame before the step, the written columns after it, and the helpers.
    pub rows: Vec<Row>,
    /// Whether the rows leave a product free.
    pub coarse: bool,
}

/// A call, as an act has it.
#[derive(Drop)]
pub struct CallStep {
    pub caller: u32,
    pub callee: u32,
    /// How many helper columns the rows have.
    pub helpers: u32,
    /// Over the caller's frame, the callee's frame, and the helpers.
    pub rows: Vec<Row>,
    /// Whether the rows leave a product free.
    pub coarse: bool,
}

/// The places of a call and its return.
#[derive(Clone, Copy)]
pub struct CallEdges {
    /// The place of the call.
    pub from: u32,
    /// The callee's entry place.
    pub to: u32,
    /// The callee's place of return.
    pub exit: u32,
    /// The place behind the call.
    pub after: u32,
}

impl Model for Table {
    ghost use Rattle.letter_acts.specs.LetterTable.Letters.{Lettered};

    ghost Value = { Lettered };

    ghost view = { λ t. record { acts = t.letters; insides = t.insides.items; calls = t.calls.items; backs = t.backs.items } };
}

impl Table {
    ghost use Rattle.letter_acts.specs.Acts.{inside_act, call_act};
    ghost use Rattle.letter_acts.specs.LetterTable.Letters.{MarkedAct, marked_acts, inside_arc, call_arc, no_letters, with_arc};
    ghost use Rattle.letter_acts.specs.LetterTable.Tables.{EdgesStay};

    /// Without letters and edges.
    pub fn new(alloc: Global) -> Self
        ensures { result ≡ no_letters }
    {
        Table {
            letters: Letters::new(alloc),
            insides: Vec::new(alloc),
            calls: Vec::new(alloc),
            backs: Vec::new(alloc),
        }
    }

    /// One more edge by an inside act.
    pub fn add_inside(&mut self, from: u32, step: InsideStep, to: u32) -> Result<(), AllocError>
        ensures added { OnOk result (self.new ≡ with_arc self.old (inside_arc from (record { act = inside_act step.proc step.written.items step.helpers step.rows.items; coarse = step.coarse }) to)) }
        ensures kept { OnErr result (self.new ≡ self.old) }
    {
        let InsideStep {
            proc,
            written,
            helpers,
            rows,
            coarse,
        } = step;
        self.insides.reserve(1)?;
        let act = Act::Inside {
            proc,
            written,
            helpers,
            rows,
            coarse,
        };
        let id = self.letters.number(act)?;
        let letter = Letter {
            id,
            kind: Kind::Inside,
            call: 0,
        };
        self.insides.push_reserved((from, letter, to));
        Ok(())
    }

    /// One more call with its return, which goes to these targets. Where memory is short, the edges are as before.
    pub fn add_call(
        &mut self,
        step: CallStep,
        targets: Vec<u32>,
        edges: CallEdges,
    ) -> Result<(), AllocError>
        ensures added { OnOk result (self.new ≡ with_arc self.old (call_arc edges.from (record { act = call_act step.caller step.callee step.helpers step.rows.items; coarse = step.coarse }) edges.to edges.exit targets.items edges.after)) }
        ensures kept { OnErr result (EdgesStay self.old self.new) }
    {
        let CallStep {
            caller,
            callee,
            helpers,
            rows,
            coarse,
        } = step;
        self.calls.reserve(1)?;
        self.backs.reserve(1)?;
        let act = Act::Call {
            caller,
            callee,
            helpers,
            rows,
            coarse,
        };
        let call = self.letters.number(act)?;
        let back = self.letters.number(Act::Back { call, targets })?;
        let calls = Letter {
            id: call,
            kind: Kind::Call,
            call: 0,
        };
        let returns = Letter {
            id: back,
            kind: Kind::Back,
            call,
        };
        self.calls.push_reserved((edges.from, calls, edges.to));
        self.backs
            .push_reserved((edges.exit, edges.from, returns, edges.after));
        Ok(())
    }

    /// The acts and the edges.
    pub fn finish(self) -> Lettered
        ensures acts { marked_acts result.acts.items ≡ self.acts }
        ensures insides { result.insides.items ≡ self.insides }
        ensures calls { result.calls.items ≡ self.calls }
        ensures backs { result.backs.items ≡ self.backs }
    {
        let Table {
            letters,
            insides,
            calls,
            backs,
        } = self;
        Lettered {
            acts: letters.finish(),
            insides,
            calls,
            backs,
        }
    }
}

ghost use Rattle.std.specs.Prelude.{◌≡◌, IfOk};

use crate::copying::{expressions, variables};
use crate::typing_rules::copying::procedures;
use crate::{TExpr, TProc};
use boogie_tree::VarInfo;
use std::alloc::AllocError;
use std::marker::Model;

/// A program for which the typing rules hold.
#[derive(Drop)]
pub struct Typed {
    globals: Vec<VarInfo>,
    axioms: Vec<TExpr>,
    procs: Vec<TProc>,
    entry: u32,
}

impl Model for Typed {
    ghost use Rattle.std.specs.Prelude.{IsTrue};
    ghost use Rattle.std.specs.Coded.{codes};
    ghost use Rattle.typed_tree.specs.contracts.types.TExpr as expr;
    ghost use Rattle.typed_tree.specs.contracts.types.TStmt as stmt;
    ghost use Rattle.typed_tree.specs.TypingRules.TypedParts.{TypedParts, typed_program};
    ghost use Rattle.typed_tree.specs.TypingRules.ValidProgram.{is_valid};

    ghost Value = { TypedParts };

    ghost coded = { Prim.hlevel (codes, expr.the_row.coded, stmt.the_row.coded) };

    ghost view = { λ t. record { globals = t.globals.items; axioms = t.axioms.items; procs = t.procs.items; entry = t.entry } };

    ghost invariant = { λ t. IsTrue (is_valid (typed_program (record { globals = t.globals.items; axioms = t.axioms.items; procs = t.procs.items; entry = t.entry }))) };
}

impl Typed {
    ghost use Rattle.std.specs.Prelude.{IsTrue};
    ghost use Rattle.typed_tree.specs.TypingRules.TypedParts.{typed_program};
    ghost use Rattle.typed_tree.specs.TypingRules.ValidProgram.{is_valid};

    /// The program of these parts.
    pub fn new(globals: Vec<VarInfo>, axioms: Vec<TExpr>, procs: Vec<TProc>, entry: u32) -> Typed
        requires { IsTrue (is_valid (typed_program (record { globals = globals.items; axioms = axioms.items; procs = procs.items; entry = entry }))) }
        ensures { result ≡ record { globals = globals.items; axioms = axioms.items; procs = procs.items; entry = entry } }
    {
        Typed {
            globals,
            axioms,
            procs,
            entry,
        }
    }

    /// The constants and globals, in order of declaration.
    pub fn globals(&self) -> &[VarInfo]
        ensures value { result.now ≡ self.now.globals }
        ensures valid { IsTrue (is_valid (typed_program self.now)) }
    {
        self.globals.as_slice()
    }

    /// The axioms, in order.
    pub fn axioms(&self) -> &[TExpr]
        ensures { result.now ≡ self.now.axioms }
    {
        self.axioms.as_slice()
    }

    /// The procedures, in order of declaration.
    pub fn procs(&self) -> &[TProc]
        ensures { result.now ≡ self.now.procs }
    {
        self.procs.as_slice()
    }

    /// The number of the procedure at which a run begins.
    pub fn entry(&self) -> u32
        ensures { result ≡ self.now.entry }
    {
        self.entry
    }

    /// A program that says the same.
    pub fn copy(&self) -> Result<Self, AllocError>
        ensures { IfOk result (λ copied. typed_program copied ≡ typed_program self.now) }
    {
        let globals = variables(&self.globals)?;
        let axioms = expressions(&self.axioms)?;
        let procs = procedures(&self.procs)?;
        Ok(Typed {
            globals,
            axioms,
            procs,
            entry: self.entry,
        })
    }
}

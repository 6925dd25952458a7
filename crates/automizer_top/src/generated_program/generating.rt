//! The generated program and its text.

ghost use Rattle.std.specs.Prelude.{◌≡◌, ◌+◌, ◌≤◌, ◌<◌, pos, [], ◌∷◌, map, IfOk, OnOk};
ghost use Rattle.boogie_tree.specs.Printing.{program_text};
ghost use Rattle.boogie_tree.specs.Tree as tree;
ghost use Rattle.boogie_tree.specs.View as view;
ghost use Rattle.boogie_tree.specs.Places.{beginning};
ghost use Rattle.automizer_top.specs.GeneratedProgram.Generated as generated;

use crate::generated_program::parts::{
    bound, calls, declared, link_name, name, procedure, reset, step,
};
use boogie_tree::{Decl, Program, Stmt, print};
use std::alloc::{AllocError, Global};

/// The statements of the entry procedure.
fn main_statements(alloc: Global) -> Result<Vec<Stmt>, AllocError>
    ensures { IfOk result (λ ss. view.statements ss.items ≡ tree.Then (generated.becomes (tree.Lit beginning (pos 0))) (tree.Then (generated.calls 1) tree.Empty)) }
{
    Ok(vec![in alloc; reset(alloc)?, calls(alloc, 1)?]?)
}

/// The entry procedure.
fn main_procedure(alloc: Global) -> Result<Decl, AllocError>
    ensures { IfOk result (λ d. view.declaration d ≡ tree.Declares generated.main_procedure) }
{
    let name = name(alloc, "main")?;
    let stmts = main_statements(alloc)?;
    procedure(alloc, name, stmts)
}

/// The procedure with that number, which calls the next one where there is one.
fn link(alloc: Global, number: u32, next: bool) -> Result<Decl, AllocError>
    requires { number ≤ 200 }
    ensures { IfOk result (λ d. view.declaration d ≡ tree.Declares (generated.link next number)) }
{
    let mut stmts = vec![in alloc; step(alloc)?]?;
    if next {
        stmts.push(calls(alloc, number + 1)?)?;
    }
    stmts.push(bound(alloc, number)?)?;
    procedure(alloc, link_name(alloc, number)?, stmts)
}

/// Adds the chain of so many procedures behind the global variable and `main`.
fn add_chain(alloc: Global, decls: &mut Vec<Decl>, count: u32) -> Result<(), AllocError>
    requires count { count ≤ 200 }
    requires first { map view.declaration decls.old.items ≡ generated.declared ∷ tree.Declares generated.main_procedure ∷ [] }
    ensures { OnOk result (map view.declaration decls.new.items ≡ generated.generated count) }
{
    for number in 1..count + 1 {
        decls.push(link(alloc, number, number < count)?)?;
    }
    Ok(())
}

/// `main`, and so many procedures in a chain, each of which adds 1 to a global variable, calls the next one, and asserts a lower bound.
pub fn generated(alloc: Global, count: u32) -> Result<Program, AllocError>
    requires { count ≤ 200 }
    ensures { IfOk result (λ p. view.program p ≡ generated.generated count) }
{
    let mut decls = vec![in alloc; declared(alloc)?, main_procedure(alloc)?]?;
    add_chain(alloc, &mut decls, count)?;
    Ok(Program { decls })
}

/// The text of the generated program of so many procedures in a chain.
pub fn big_text(alloc: Global, count: u32) -> Result<Vec<u8>, AllocError>
    requires { count ≤ 200 }
    ensures { IfOk result (λ text. text.items ≡ program_text (generated.generated count)) }
{
    print(alloc, &generated(alloc, count)?)
}

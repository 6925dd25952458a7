ghost use Rattle.std.specs.Prelude.{◌≡◌, ◌++◌, ℕ, codes, map, OnOk};
ghost use Rattle.boogie_tree.specs.Printing.{line, declaration_text, procedure_text, head_text, signature_text, specification_text, specifications_text, locals_text, results_text, end_of_head, body_text, variables_text, modified_text};
ghost use Rattle.boogie_tree.specs.View as view;

use super::lines::{claim_line, condition, plain_line, variable_line};
use super::lists::{names, variables};
use super::pieces::append;
use super::statements::block;
use crate::tree::{Body, Decl, Name, Proc, Spec, Vary};
use std::alloc::AllocError;

/// Puts the declaration behind the text.
pub(super) fn declaration(out: &mut Vec<u8>, declaration: &Decl) -> Result<(), AllocError>
    ensures { OnOk result (out.new.items ≡ out.old.items ++ declaration_text (view.declaration declaration.now)) }
{
    match declaration {
        Decl::Const(declared) => variable_line(out, 0, b"const ", declared),
        Decl::Global(declared) => variable_line(out, 0, b"var ", declared),
        Decl::Axiom(_, axiom) => claim_line(out, 0, b"axiom ", axiom),
        Decl::Procedure(declared) => procedure(out, b"procedure", declared),
        Decl::Implementation(declared) => procedure(out, b"implementation", declared),
    }
}

/// A procedure or an implementation, behind its word.
fn procedure(out: &mut Vec<u8>, word: &[u8], declared: &Proc) -> Result<(), AllocError>
    ensures { OnOk result (out.new.items ≡ out.old.items ++ procedure_text word.now (view.procedure declared.now)) }
{
    head(out, word, declared)?;
    specifications(out, &declared.specs)?;
    body(out, &declared.body)
}

/// The first line of a procedure.
fn head(out: &mut Vec<u8>, word: &[u8], declared: &Proc) -> Result<(), AllocError>
    ensures { OnOk result (out.new.items ≡ out.old.items ++ head_text word.now (view.procedure declared.now)) }
{
    signature(out, word, &declared.name, &declared.params)?;
    results(out, &declared.results)?;
    head_end(out, &declared.body)?;
    append(out, b"\n")
}

/// The first line of a procedure up to its parameters.
pub fn signature(
    out: &mut Vec<u8>,
    word: &[u8],
    name: &Name,
    params: &[Vary],
) -> Result<(), AllocError>
    ensures { OnOk result (out.new.items ≡ out.old.items ++ signature_text word.now name.now params.now) }
{
    append(out, word)?;
    append(out, b" ")?;
    append(out, name.text.bytes())?;
    append(out, b"(")?;
    variables(out, params)?;
    append(out, b")")
}

/// The results behind the parameters, where there are some.
pub fn results(out: &mut Vec<u8>, results: &[Vary]) -> Result<(), AllocError>
    ensures { OnOk result (out.new.items ≡ out.old.items ++ results_text results.now) }
{
    if results.is_empty() {
        return Ok(());
    }
    append(out, b" returns (")?;
    variables(out, results)?;
    append(out, b")")
}

/// A head without a body ends with a semicolon.
fn head_end(out: &mut Vec<u8>, body: &Option<Body>) -> Result<(), AllocError>
    ensures { OnOk result (out.new.items ≡ out.old.items ++ end_of_head (view.body_of body.now)) }
{
    match body {
        None => append(out, b";"),
        Some(_) => Ok(()),
    }
}

fn specifications(out: &mut Vec<u8>, specs: &[Spec]) -> Result<(), AllocError>
    ensures { OnOk result (out.new.items ≡ out.old.items ++ specifications_text (map view.specification specs.now)) }
{
    for spec in specs {
        specification(out, spec)?;
    }
    Ok(())
}

fn specification(out: &mut Vec<u8>, spec: &Spec) -> Result<(), AllocError>
    ensures { OnOk result (out.new.items ≡ out.old.items ++ specification_text (view.specification spec.now)) }
{
    match spec {
        Spec::Requires(required) => condition(out, 1, b"requires", required),
        Spec::Ensures(ensured) => condition(out, 1, b"ensures", ensured),
        Spec::Modifies(globals) => modified(out, globals),
    }
}

/// The line that names what a procedure may change.
fn modified(out: &mut Vec<u8>, globals: &[Name]) -> Result<(), AllocError>
    ensures { OnOk result (out.new.items ≡ out.old.items ++ line 1 (codes "modifies" ++ modified_text globals.now ++ codes ";")) }
{
    append(out, b"  modifies")?;
    if !globals.is_empty() {
        append(out, b" ")?;
        names(out, globals)?;
    }
    append(out, b";\n")
}

/// The lines of a body, where there is one.
fn body(out: &mut Vec<u8>, body: &Option<Body>) -> Result<(), AllocError>
    ensures { OnOk result (out.new.items ≡ out.old.items ++ body_text (view.body_of body.now)) }
{
    let Some(body) = body else {
        return Ok(());
    };
    plain_line(out, 0, b"{")?;
    local_lines(out, &body.locals)?;
    block(out, 1, &body.stmts)?;
    plain_line(out, 0, b"}")
}

fn local_lines(out: &mut Vec<u8>, locals: &[Vary]) -> Result<(), AllocError>
    ensures { OnOk result (out.new.items ≡ out.old.items ++ locals_text locals.now) }
{
    for local in locals {
        variable_line(out, 1, b"var ", local)?;
    }
    Ok(())
}

//! Procedures with contracts.

ghost use Rattle.std.specs.Prelude.{◌≡◌, ◌<◌, ◌^◌, ◌∷◌, ◌++◌, [], Some, IfOk, OnOk, filter, length, map, slice_get};
ghost use Rattle.std.specs.List.{position_from};
ghost use Rattle.std.specs.Option.{option_map};
ghost use Rattle.boogie_tree.specs.Tree as plain;
ghost use Rattle.boogie_tree.specs.View as tree;
ghost use Rattle.typed_tree.specs.TypedView as typed;
ghost use Rattle.typed_tree.specs.TypingRules.Counts.{places};
ghost use Rattle.typed_tree.specs.TypingRules.TypedParts.{typed_program};
ghost use Rattle.explained_proof.specs.Explained as spec;
ghost use Rattle.explained_proof.specs.Statements.{condition};
ghost use Rattle.explained_proof.specs.Ties.Views as view;

use crate::backwards::backwards_of;
use crate::clauses::{Entered, Procedure};
use crate::knowledge::Knowledge;
use crate::row_expressions::Position;
use crate::statements::{self, Place, Walk};
use boogie_run::boogie_points::counts::granted;
use boogie_tree::{Body, Expr, Name, Proc, Spec, Stmt};
use letter_acts::Icfg;
use std::alloc::{AllocError, Global};
use typed_tree::typing_rules::Typed;
use typed_tree::typing_rules::laws::typed_programs_are_typed;
use typed_tree::{TProc, TStmt};

/// A program with its graph, and what is known there.
#[derive(Clone, Copy)]
pub(crate) struct Telling<'a> {
    pub(crate) alloc: Global,
    pub(crate) program: &'a Typed,
    pub(crate) icfg: &'a Icfg,
    pub(crate) knowledge: &'a Knowledge<'a>,
}

/// The place of a procedure in a list of places, if there is one.
fn place_of(places: &[Option<u32>], number: u32) -> Option<u32>
    ensures { result ≡ spec.place_of places.now number }
{
    places.get(number as usize).copied().flatten()
}

/// The numbers of places and procedures have 32 bits.
fn numbers_fit(program: &Typed)
    ensures places { places (typed_program program.now) < 2 ^ 32 }
    ensures procedures { length program.now.procs < 2 ^ 32 }
{
    let _globals = program.globals();
    typed_programs_are_typed();
}

/// Adds entry nodes.
fn add_entered(
    is_premise: bool,
    nodes: &[usize],
    entries: &mut Vec<Entered>,
) -> Result<(), AllocError>
    ensures { OnOk result (entries.new.items ≡ entries.old.items ++ map (spec.entered is_premise) nodes.now) }
{
    for node in nodes {
        entries.push(Entered {
            node: *node,
            is_premise,
        })?;
    }
    Ok(())
}

/// Clauses as requires.
fn requires_of(alloc: Global, clauses: Vec<Expr>) -> Result<Vec<Spec>, AllocError>
    ensures { IfOk result (λ list. map tree.specification list.items ≡ map (λ e. plain.Requires (condition e)) (map tree.expression clauses.items)) }
{
    let mut list = Vec::with_capacity(alloc, clauses.len())?;
    for clause in clauses {
        list.push(Spec::Requires(statements::condition(clause)))?;
    }
    Ok(list)
}

/// Clauses as ensures.
fn ensures_of(alloc: Global, clauses: Vec<Expr>) -> Result<Vec<Spec>, AllocError>
    ensures { IfOk result (λ list. map tree.specification list.items ≡ map (λ e. plain.Ensures (condition e)) (map tree.expression clauses.items)) }
{
    let mut list = Vec::with_capacity(alloc, clauses.len())?;
    for clause in clauses {
        list.push(Spec::Ensures(statements::condition(clause)))?;
    }
    Ok(list)
}

impl<'a> Telling<'a> {
    /// Adds a node, if it has no predicate.
    fn push_start(&self, node: usize, nodes: &mut Vec<usize>) -> Result<(), AllocError>
        ensures { OnOk result (nodes.new.items ≡ nodes.old.items ++ filter (spec.has_no_predicate (view.told self.now).known) (node ∷ [])) }
    {
        if self.knowledge.preds(node).is_empty() {
            nodes.push(node)?;
        }
        Ok(())
    }

    /// The entry nodes of the frame in which runs begin, if it is of this procedure: those at the start without predicates.
    fn starts(&self, number: u32) -> Result<Vec<usize>, AllocError>
        ensures { IfOk result (λ list. list.items ≡ spec.starts (view.told self.now) number) }
    {
        let mut nodes = Vec::new(self.alloc);
        if number == self.program.entry() {
            for node in self.knowledge.entered(0) {
                self.push_start(*node, &mut nodes)?;
            }
        }
        Ok(nodes)
    }

    /// The entry nodes of a procedure where it is called.
    fn called(&self, number: u32) -> &[usize]
        ensures { result.now ≡ spec.called (view.told self.now) number }
    {
        match place_of(self.icfg.entries(), number) {
            Some(place) => self.knowledge.entered(u64::from(place)),
            None => &[],
        }
    }

    /// The entry nodes of a procedure.
    fn entries(&self, number: u32) -> Result<Vec<Entered>, AllocError>
        ensures { IfOk result (λ list. list.items ≡ spec.entries (view.told self.now) number) }
    {
        let starts = self.starts(number)?;
        let called = self.called(number);
        let is_premise = !starts.is_empty() || called.len() > 1;
        let mut entries = Vec::new(self.alloc);
        add_entered(false, &starts, &mut entries)?;
        add_entered(is_premise, called, &mut entries)?;
        Ok(entries)
    }

    /// What is known of a procedure.
    fn procedure(&self, number: u32, listed: &TProc) -> Result<Procedure<'a>, AllocError>
        ensures { IfOk result (λ p. view.procedure p ≡ spec.known_procedure (view.told self.now) number (typed.procedure listed.now)) }
    {
        Ok(Procedure {
            knowledge: self.knowledge,
            frame: self.icfg.columns(number),
            params: listed.params,
            results: listed.results,
            entries: self.entries(number)?,
        })
    }

    /// What is required of callers; the entry procedure of the run keeps its own requires.
    fn required(&self, procedure: &Procedure<'_>, number: u32) -> Result<Vec<Spec>, AllocError>
        ensures { IfOk result (λ list. map tree.specification list.items ≡ spec.requires (view.told self.now) number (view.procedure procedure.now)) }
    {
        if number == self.program.entry() {
            return Ok(Vec::new(self.alloc));
        }
        requires_of(self.alloc, procedure.required(self.alloc)?)
    }

    /// What is ensured where the procedure returns.
    fn ensured(&self, procedure: &Procedure<'_>, number: u32) -> Result<Vec<Spec>, AllocError>
        ensures { IfOk result (λ list. map tree.specification list.items ≡ spec.ensures (view.told self.now) number (view.procedure procedure.now)) }
    {
        match place_of(self.icfg.exits(), number) {
            Some(place) => ensures_of(
                self.alloc,
                procedure.holding(self.alloc, Position::Ensures, u64::from(place))?,
            ),
            None => Ok(Vec::new(self.alloc)),
        }
    }

    /// The statements of a procedure, the first place of which comes behind the free requires.
    fn statements(
        &self,
        procedure: &Procedure<'_>,
        number: u32,
        listed: &TProc,
        inside: &[TStmt],
        place: u32,
        given: Vec<Stmt>,
    ) -> Result<Vec<Stmt>, AllocError>
        requires stands { slice_get (view.told self.now).program.procs number ≡ Some (typed.procedure listed.now) }
        requires body { (typed.procedure listed.now).body ≡ Some (typed.statements inside.now) }
        ensures { IfOk result (λ out. tree.statements out.items ≡
            spec.explained_statements (view.told self.now) (view.procedure procedure.now) (tree.statements given.items) (typed.procedure listed.now) (typed.statements inside.now) place) }
    {
        numbers_fit(self.program);
        let backwards = backwards_of(self.alloc, inside)?;
        let walk = Walk {
            alloc: self.alloc,
            procs: self.program.procs(),
            procedure,
            backwards: &backwards,
        };
        let at = u64::from(place) + granted(&listed.specs) as u64;
        walk.statements(given, Place { rest: inside, at })
    }

    /// A body, with what holds in it.
    fn body(
        &self,
        procedure: &Procedure<'_>,
        number: u32,
        listed: &TProc,
        given: Body,
    ) -> Result<Body, AllocError>
        requires { slice_get (view.told self.now).program.procs number ≡ Some (typed.procedure listed.now) }
        ensures { IfOk result (λ b. tree.body b ≡ spec.body_from (view.told self.now) (view.procedure procedure.now) (tree.body given) (typed.procedure listed.now)
            (typed.procedure listed.now).body (spec.place_of (view.told self.now).graph.entries number)) }
    {
        let Some(inside) = &listed.body else {
            return Ok(given);
        };
        let Some(place) = place_of(self.icfg.entries(), number) else {
            return Ok(given);
        };
        let Body { locals, stmts } = given;
        let stmts = self.statements(procedure, number, listed, inside, place, stmts)?;
        Ok(Body { locals, stmts })
    }

    /// A body, if there is one, with what holds in it.
    fn body_if_any(
        &self,
        procedure: &Procedure<'_>,
        number: u32,
        listed: &TProc,
        given: Option<Body>,
    ) -> Result<Option<Body>, AllocError>
        requires stands { slice_get (view.told self.now).program.procs number ≡ Some (typed.procedure listed.now) }
        requires known { view.procedure procedure.now ≡ spec.known_procedure (view.told self.now) number (typed.procedure listed.now) }
        ensures { IfOk result (λ o. tree.body_of o ≡ option_map (spec.explained_body (view.told self.now) number (typed.procedure listed.now)) (tree.body_of given)) }
    {
        match given {
            Some(given) => Ok(Some(self.body(procedure, number, listed, given)?)),
            None => Ok(None),
        }
    }

    /// A procedure, or its implementation, with what holds in its body; one that is never entered stays as it is.
    fn implemented(&self, number: u32, listed: &TProc, given: Proc) -> Result<Proc, AllocError>
        requires { slice_get (view.told self.now).program.procs number ≡ Some (typed.procedure listed.now) }
        ensures { IfOk result (λ p. tree.procedure p ≡ spec.implemented (view.told self.now) number (typed.procedure listed.now) (tree.procedure given)) }
    {
        let procedure = self.procedure(number, listed)?;
        if procedure.entries.is_empty() {
            return Ok(given);
        }
        let Proc {
            span,
            name,
            params,
            results,
            specs,
            body,
        } = given;
        let body = self.body_if_any(&procedure, number, listed, body)?;
        Ok(Proc {
            span,
            name,
            params,
            results,
            specs,
            body,
        })
    }

    /// What is required and ensured; of one that is never entered only what is required.
    fn contract(&self, number: u32, listed: &TProc) -> Result<Vec<Spec>, AllocError>
        ensures { IfOk result (λ list. map tree.specification list.items ≡ spec.contract (view.told self.now) number (typed.procedure listed.now)) }
    {
        let procedure = self.procedure(number, listed)?;
        let mut specs = self.required(&procedure, number)?;
        if !procedure.entries.is_empty() {
            let mut ensured = self.ensured(&procedure, number)?;
            specs.append(&mut ensured)?;
        }
        Ok(specs)
    }

    /// A procedure with its contract behind its own specifications.
    fn contracted(&self, number: u32, listed: &TProc, given: Proc) -> Result<Proc, AllocError>
        ensures { IfOk result (λ p. tree.procedure p ≡ spec.contracted (view.told self.now) number (typed.procedure listed.now) (tree.procedure given)) }
    {
        let mut contract = self.contract(number, listed)?;
        let Proc {
            span,
            name,
            params,
            results,
            specs,
            body,
        } = given;
        let mut specs = specs;
        specs.append(&mut contract)?;
        Ok(Proc {
            span,
            name,
            params,
            results,
            specs,
            body,
        })
    }

    /// A procedure that has a body, with its contract, and with what holds in it.
    fn declared(&self, number: u32, listed: &TProc, given: Proc) -> Result<Proc, AllocError>
        requires { slice_get (view.told self.now).program.procs number ≡ Some (typed.procedure listed.now) }
        ensures { IfOk result (λ p. tree.procedure p ≡ spec.declared (view.told self.now) number (typed.procedure listed.now) (tree.procedure given)) }
    {
        if listed.body.is_none() {
            return Ok(given);
        }
        let given = self.contracted(number, listed, given)?;
        self.implemented(number, listed, given)
    }

    /// The number of the procedure of that name, if there is one.
    fn number_of(&self, name: &Name) -> Option<u32>
        ensures { result ≡ position_from (spec.is_of name.now) 0 (view.told self.now).program.procs }
    {
        numbers_fit(self.program);
        for (number, listed) in self.program.procs().iter().enumerate() {
            if listed.name.bytes() == name.text.bytes() {
                return Some(number as u32);
            }
        }
        None
    }

    /// A procedure with its contract, and with what holds in it, if the program has it.
    pub(crate) fn declared_named(&self, given: Proc) -> Result<Proc, AllocError>
        ensures { IfOk result (λ p. tree.procedure p ≡ spec.on_named (spec.declared (view.told self.now)) (view.told self.now).program (tree.procedure given)) }
    {
        let Some(number) = self.number_of(&given.name) else {
            return Ok(given);
        };
        match self.program.procs().get(number as usize) {
            Some(listed) => self.declared(number, listed, given),
            None => Ok(given),
        }
    }

    /// The implementation of a procedure with what holds in it, if the program has it.
    pub(crate) fn implemented_named(&self, given: Proc) -> Result<Proc, AllocError>
        ensures { IfOk result (λ p. tree.procedure p ≡ spec.on_named (spec.implemented (view.told self.now)) (view.told self.now).program (tree.procedure given)) }
    {
        let Some(number) = self.number_of(&given.name) else {
            return Ok(given);
        };
        match self.program.procs().get(number as usize) {
            Some(listed) => self.implemented(number, listed, given),
            None => Ok(given),
        }
    }
}

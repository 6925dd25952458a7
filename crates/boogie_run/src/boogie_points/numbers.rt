//! Where the numbers of procedures begin.

ghost use Rattle.std.specs.Prelude.{◌≡◌, ◌+◌, ◌<◌, ◌^◌, ℕ, map, slice_get, IfOk, IfSome};
ghost use Rattle.std.specs.Option.{option_map};
ghost use Rattle.typed_tree.specs.TypedView as view;
ghost use Rattle.typed_tree.specs.TypingRules.Counts as count;
ghost use Rattle.typed_tree.specs.TypingRules.Counts.{all_places};
ghost use Rattle.typed_tree.specs.TypingRules.TypedParts.{typed_program};
ghost use Rattle.boogie_run.specs.BoogiePoints.Numbered.{first_numbers, numbered, numbers_of, IsFirst, block_of};
ghost use Rattle.boogie_run.specs.BoogiePoints.Room.{HasRoom};
ghost use Rattle.boogie_run.specs.BoogiePoints.View.{todo_of};

use crate::boogie_points::blocks::Todo;
use crate::boogie_points::conditions::procedure_at;
use crate::boogie_points::counts::{
    all_ensures, at_call, block_assertions, block_points, granted, plain_ensures,
};
use std::alloc::{AllocError, Global};
use std::marker::Model;
use typed_tree::TProc;
use typed_tree::typing_rules::Typed;
use typed_tree::typing_rules::laws::typed_programs_are_typed;

/// Where the numbers of a procedure begin: of its assertions, of its places behind the free requires, and of its ensures that are asserted.
#[derive(Clone, Copy)]
pub(crate) struct First {
    pub(crate) id: u32,
    pub(crate) at: u32,
    pub(crate) at_exit: u32,
}

/// Where the numbers of each procedure begin.
#[derive(Drop)]
pub struct Numbers {
    firsts: Vec<First>,
}

impl Model for Numbers {
    ghost use Rattle.std.specs.Prelude.{List};
    ghost use Rattle.boogie_run.specs.declared.boogie_points.numbers.First.{First};

    ghost Value = { List First };

    ghost view = { λ n. n.firsts.items };
}

/// What a typed program keeps of its numbers.
pub(crate) fn fits(program: &Typed)
    ensures places { count.places (typed_program program.now) < 2 ^ 32 }
    ensures locals { (f : ℕ) → IfSome (slice_get (typed_program program.now).procs f) (λ q. q.params + q.results < 2 ^ 32) }
{
    let _globals = program.globals();
    typed_programs_are_typed();
}

/// The assertions of a procedure that has a body.
fn body_assertions(procs: &[TProc], counted: &TProc) -> u32
    requires { count.body_assertions (map view.procedure procs.now) (view.procedure counted.now).specs (view.procedure counted.now).body < 2 ^ 32 }
    ensures { result ≡ count.body_assertions (map view.procedure procs.now) (view.procedure counted.now).specs (view.procedure counted.now).body }
{
    match &counted.body {
        Some(body) => block_assertions(procs, body) + plain_ensures(&counted.specs),
        None => 0,
    }
}

/// The points of a procedure that has a body.
#[tactic(auto, using(crate::proofs::BoogiePoints::ConditionLaws::free_requires_counted))]
fn body_points(procs: &[TProc], counted: &TProc) -> u32
    requires { count.body_points (map view.procedure procs.now) (view.procedure counted.now).specs (view.procedure counted.now).body < 2 ^ 32 }
    ensures { result ≡ count.body_points (map view.procedure procs.now) (view.procedure counted.now).specs (view.procedure counted.now).body }
{
    match &counted.body {
        Some(body) => {
            let said = all_ensures(&counted.specs);
            granted(&counted.specs) as u32 + (block_points(procs, body) + (said + 1))
        }
        None => 0,
    }
}

/// Where the numbers of a procedure begin, with its first assertion and its first place.
#[tactic(auto, using(crate::proofs::BoogiePoints::ConditionLaws::free_requires_counted))]
fn first_of(procs: &[TProc], counted: &TProc, id: u32, at: u32) -> First
    requires ids { id + count.body_assertions (map view.procedure procs.now) (view.procedure counted.now).specs (view.procedure counted.now).body < 2 ^ 32 }
    requires places { at + count.body_points (map view.procedure procs.now) (view.procedure counted.now).specs (view.procedure counted.now).body < 2 ^ 32 }
    ensures { result ≡ first_numbers (map view.procedure procs.now) id at (view.procedure counted.now) (view.procedure counted.now).body }
{
    match &counted.body {
        Some(body) => First {
            id,
            at: at + granted(&counted.specs) as u32,
            at_exit: id + block_assertions(procs, body),
        },
        None => First {
            id,
            at,
            at_exit: id,
        },
    }
}

/// Where those of each procedure begin, with the first place of the first one.
fn all_firsts(alloc: Global, procs: &[TProc], first: u32) -> Result<Vec<First>, AllocError>
    requires places { first + all_places (map view.procedure procs.now) (map view.procedure procs.now) < 2 ^ 32 }
    requires first { 0 < first }
    ensures { IfOk result (λ v. v.items ≡ numbered (map view.procedure procs.now) 1 first (map view.procedure procs.now)) }
{
    let mut found = Vec::with_capacity(alloc, procs.len())?;
    let mut id = 1;
    let mut at = first;
    for counted in procs {
        found.push(first_of(procs, counted, id, at))?;
        id += body_assertions(procs, counted);
        at += body_points(procs, counted);
    }
    Ok(found)
}

impl Numbers {
    /// Where the numbers of each procedure of a program begin.
    pub fn of(alloc: Global, program: &Typed) -> Result<Numbers, AllocError>
        ensures { IfOk result (λ n. n ≡ numbers_of (typed_program program.now)) }
    {
        fits(program);
        let procs = program.procs();
        let demanded = at_call(procs, program.entry());
        let first = 1 + (program.axioms().len() as u32 + demanded);
        let firsts = all_firsts(alloc, procs, first)?;
        Ok(Numbers { firsts })
    }

    fn get(&self, proc: u32) -> Option<First>
        ensures { result ≡ slice_get self.now proc }
    {
        self.firsts.get(proc as usize).copied()
    }
}

/// Where the numbers of a procedure with a body begin.
pub(crate) fn first_at(program: &Typed, numbers: &Numbers, proc: u32) -> Option<First>
    requires { numbers.now ≡ numbers_of (typed_program program.now) }
    ensures { IsFirst (typed_program program.now) proc (slice_get (typed_program program.now).procs proc) result }
{
    fits(program);
    let found = procedure_at(program.procs(), proc)?;
    match &found.body {
        Some(_) => numbers.get(proc),
        None => None,
    }
}

/// The body of a procedure as a block still to do.
pub(crate) fn body_of<'a>(program: &'a Typed, numbers: &Numbers, proc: u32) -> Option<Todo<'a>>
    requires { numbers.now ≡ numbers_of (typed_program program.now) }
    ensures block { option_map todo_of result ≡ block_of (typed_program program.now) proc (slice_get (typed_program program.now).procs proc) }
    ensures room { IfSome result (λ b. HasRoom (typed_program program.now).procs (todo_of b)) }
{
    let first = first_at(program, numbers, proc)?;
    let found = procedure_at(program.procs(), proc)?;
    match &found.body {
        Some(body) => Some(Todo {
            rest: body,
            of_loop: false,
            id: first.id,
            at: first.at,
        }),
        None => None,
    }
}

//! Labels to which jumps lead backwards, and breaks that name labels.

ghost use Rattle.std.specs.Prelude.{◌≡◌, IfOk, OnOk};
ghost use Rattle.boogie_tree.specs.View as tree;
ghost use Rattle.typed_tree.specs.TypedView as typed;
ghost use Rattle.explained_proof.specs.Backwards as spec;
ghost use Rattle.explained_proof.specs.Ties.Views as view;

use boogie_tree::{Name, Stmt};
use std::alloc::{AllocError, Global};
use std::collections::HashSet;
use typed_tree::TStmt;

/// Numbers of labels.
#[derive(Drop)]
pub(crate) struct Numbers {
    found: HashSet<u32>,
}

/// The labels that were passed, and those that a goto behind them names.
#[derive(Drop)]
struct JumpLabels {
    passed: Numbers,
    backwards: Numbers,
}

impl Numbers {
    /// None.
    fn new(alloc: Global) -> Self
        ensures { view.numbers result ≡ spec.no_number }
    {
        Numbers {
            found: HashSet::new(alloc),
        }
    }

    /// Adds a number.
    fn add(&mut self, number: u32) -> Result<(), AllocError>
        ensures { OnOk result (view.numbers self.new ≡ spec.with_number number (view.numbers self.old)) }
    {
        self.found.insert(number)?;
        Ok(())
    }

    /// Whether it is one of these.
    pub(crate) fn has(&self, number: u32) -> bool
        ensures { result ≡ view.numbers self.now number }
    {
        self.found.contains(&number)
    }
}

impl JumpLabels {
    /// Notes that a goto names a label.
    fn jump(&mut self, number: u32) -> Result<(), AllocError>
        ensures { OnOk result (view.labels self.new ≡ spec.jump number (view.labels self.old)) }
    {
        if !self.passed.has(number) {
            return Ok(());
        }
        self.backwards.add(number)
    }

    /// Notes a goto.
    fn jumps(&mut self, numbers: &[u32]) -> Result<(), AllocError>
        ensures { OnOk result (view.labels self.new ≡ spec.jumps numbers.now (view.labels self.old)) }
    {
        for number in numbers {
            self.jump(*number)?;
        }
        Ok(())
    }

    /// Notes the labels and jumps of a statement. It recurses as deep as statements are nested, as dropping one does.
    #[cycle(label_jumps)]
    fn pass(&mut self, statement: &TStmt) -> Result<(), AllocError>
        ensures { OnOk result (view.labels self.new ≡ spec.passing (typed.statement statement.now) (view.labels self.old)) }
    {
        match statement {
            TStmt::Label(number) => self.passed.add(*number),
            TStmt::Goto(_, numbers) => self.jumps(numbers),
            TStmt::If(_, _, then, otherwise) => {
                self.pass_all(then)?;
                self.pass_all(otherwise)
            }
            TStmt::While(_, _, _, body) => self.pass_all(body),
            _ => Ok(()),
        }
    }

    /// Notes those of statements.
    #[cycle(label_jumps)]
    fn pass_all(&mut self, statements: &[TStmt]) -> Result<(), AllocError>
        ensures { OnOk result (view.labels self.new ≡ spec.passing_all (typed.statements statements.now) (view.labels self.old)) }
    {
        for statement in statements {
            self.pass(statement)?;
        }
        Ok(())
    }
}

/// The labels of a body that a goto behind them names.
pub(crate) fn backwards_of(alloc: Global, statements: &[TStmt]) -> Result<Numbers, AllocError>
    ensures { IfOk result (λ n. view.numbers n ≡ (spec.passing_all (typed.statements statements.now) spec.no_labels).backwards) }
{
    let mut labels = JumpLabels {
        passed: Numbers::new(alloc),
        backwards: Numbers::new(alloc),
    };
    labels.pass_all(statements)?;
    let JumpLabels { backwards, .. } = labels;
    Ok(backwards)
}

/// Whether it is the name.
fn is_named(name: &[u8], given: &Option<Name>) -> bool
    ensures { result ≡ spec.is_named name.now given.now }
{
    match given {
        Some(given) => name == given.text.bytes(),
        None => false,
    }
}

/// Whether a break in the statement names the label. It recurses as deep as statements are nested, as dropping one does.
#[cycle(named_breaks)]
pub(crate) fn breaks_to(name: &[u8], statement: &Stmt) -> bool
    ensures { result ≡ spec.breaks_to name.now (tree.statement statement.now) }
{
    match statement {
        Stmt::Break(_, given) => is_named(name, given),
        Stmt::If(_, _, then, otherwise) => {
            some_breaks_to(name, then) || some_breaks_to(name, otherwise)
        }
        Stmt::While(_, _, _, body) => some_breaks_to(name, body),
        _ => false,
    }
}

/// Whether a break in one of the statements names the label.
#[cycle(named_breaks)]
fn some_breaks_to(name: &[u8], statements: &[Stmt]) -> bool
    ensures { result ≡ spec.some_breaks_to name.now (tree.statements statements.now) }
{
    for statement in statements {
        if breaks_to(name, statement) {
            return true;
        }
    }
    false
}

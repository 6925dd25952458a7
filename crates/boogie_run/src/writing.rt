//! Writing of columns.

ghost use Rattle.std.specs.Prelude.{◌≡◌};
ghost use Rattle.boogie_run.specs.Steps as spec;
ghost use Rattle.boogie_run.specs.RunView.{config_of, FitsProgram};

use crate::configurations::Config;
use boogie_tree::Column;

/// Puts a value at that number, where there is one.
#[tactic(auto, using(crate::proofs::Puts::puts))]
pub(crate) fn put(values: &mut Vec<i128>, n: u32, value: i128)
    ensures { values.new.items ≡ spec.put values.old.items n value }
{
    let n = n as usize;
    if n < values.len() {
        values[n] = value;
    }
}

#[tactic(auto, using(crate::proofs::Puts::all_put_done))]
/// Puts values at these numbers, one after the other.
pub(crate) fn put_all(values: &mut Vec<i128>, numbers: &[u32], news: &[i128])
    ensures { values.new.items ≡ spec.all_put values.old.items numbers.now news.now }
{
    let count = numbers.len().min(news.len());
    for i in 0..count {
        put(values, numbers[i], news[i]);
    }
}

/// Writes a value to a column.
#[tactic(auto, using(crate::proofs::FrameLemmas::with_top, crate::proofs::FrameLemmas::top_is))]
pub(crate) fn write(config: &mut Config<'_>, column: Column, value: i128)
    requires fits { FitsProgram config.old.program.now config.old }
    ensures value { config_of config.new ≡ spec.written (config_of config.old) column value }
    ensures fits { FitsProgram config.old.program.now config.new }
{
    match column {
        Column::Global(n) => put(&mut config.globals, n, value),
        Column::Old(_) => {}
        Column::Local(n) => {
            if let Some(frame) = config.frames.last_mut() {
                put(&mut frame.locals, n, value);
            }
        }
    }
}

#[tactic(auto, using(crate::proofs::Puts::all_written_done))]
/// Writes values to columns, one after the other.
pub(crate) fn write_all(config: &mut Config<'_>, columns: &[Column], values: &[i128])
    requires fits { FitsProgram config.old.program.now config.old }
    ensures value { config_of config.new ≡ spec.all_written (config_of config.old) columns.now values.now }
    ensures fits { FitsProgram config.old.program.now config.new }
{
    let count = columns.len().min(values.len());
    for i in 0..count {
        write(config, columns[i], values[i]);
    }
}

/// Puts values at these numbers of constants and globals, one after the other.
pub(crate) fn write_globals(config: &mut Config<'_>, numbers: &[u32], values: &[i128])
    requires fits { FitsProgram config.old.program.now config.old }
    ensures value { config_of config.new ≡ record (config_of config.old) { globals = spec.all_put (config_of config.old).globals numbers.now values.now } }
    ensures fits { FitsProgram config.old.program.now config.new }
{
    put_all(&mut config.globals, numbers, values);
}

//! Laws of the defaults of runs.

ghost use Rattle.boogie_run.specs.RunDefaults.Laws.{NoDefaultIsTaken, RefusedIsNotTaken};

/// In a run of a valid program the frame that runs is one of a procedure with a body; a goto finds its labels and leads behind them, a
/// break finds the loops that it leaves, a call its procedure; each column that is read or written is there, no divisor is 0, and the
/// lists of values, arguments, targets and results are complete.
pub fn no_default_is_taken()
    ensures { NoDefaultIsTaken }
{}

/// A step is refused exactly where its choice is not taken.
pub fn refused_is_not_taken()
    ensures { RefusedIsNotTaken }
{}

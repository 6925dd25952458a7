//! Where a typed program fails an assertion its stack machine does, and where the machine does by exact steps the program does. Definitions and laws alone.
#![tactic(auto)]

pub mod laws;

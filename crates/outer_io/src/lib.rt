//! The outside: what the program reads texts from and writes its output to. Code above is generic over
//! [`Shelf`] and [`Sink`]; a fault of the outside is told by a count that rises.
#![tactic(auto)]

mod memory;
mod reading;
mod real;
mod shelf;
mod sink;
mod writing;

pub use memory::{MemShelf, MemSink};
pub use reading::{ReadFault, read_all};
pub use real::{FileShelf, StdSink};
pub use shelf::{Failed, Shelf};
pub use sink::Sink;
pub use writing::{WriteFault, write_all};

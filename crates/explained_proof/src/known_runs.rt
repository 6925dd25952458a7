//! What the nodes of an annotation that proves the graph of a program say of its runs, frame by frame. Definitions and laws alone.
#![tactic(auto)]

pub mod laws;

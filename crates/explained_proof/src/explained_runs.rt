//! What the text of an explained program is worth: each clause that an annotation adds holds in every run, wherever it stands. Laws alone.
#![tactic(auto)]

pub mod laws;

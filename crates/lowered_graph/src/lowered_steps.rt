//! The stack machine of a typed program over its points, moves of its runs, and a lemma for each action both ways. Definitions and lemmas alone.
#![tactic(auto)]

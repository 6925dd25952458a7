use itp_automaton::Certified;
use letter_acts::Icfg;
use race_rounds::Limits;
use typed_tree::typing_rules::Typed;
use version_cell::VersionCell;

/// What all workers of a race share.
#[derive(Drop)]
pub(crate) struct Job<'a, G> {
    pub(crate) program: &'a Typed,
    pub(crate) icfg: &'a Icfg,
    pub(crate) limits: Limits,
    pub(crate) cell: &'a VersionCell<Certified>,
    pub(crate) gate: &'a G,
}

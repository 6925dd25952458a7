use crate::acts::Act;
use crate::frames::Frame;
use crate::sites::Site;
use boogie_tree::Text;
use nwa_base::Nwa;

/// The parts of a graph, whatever they are.
#[derive(Drop)]
pub(crate) struct Parts {
    pub(crate) nwa: Nwa,
    pub(crate) acts: Vec<Act>,
    pub(crate) frames: Vec<Frame>,
    pub(crate) names: Vec<Text>,
    pub(crate) place_procs: Vec<u32>,
    pub(crate) entries: Vec<Option<u32>>,
    pub(crate) exits: Vec<Option<u32>>,
    pub(crate) sites: Vec<Site>,
}

ghost use Rattle.std.specs.Prelude.{◌≡◌, ◌<◌, ℕ, List, false, Some, IfOk, OnOk, length, slice_get};
ghost use Rattle.std.specs.Option.{option_map};
ghost use Rattle.letter_acts.specs.Acts.{plain_acts, marks_of, plain_frames};
ghost use Rattle.letter_acts.specs.Parts.{graph_of};

use crate::acts::Act;
use crate::finding::{act_of, columns_of};
use crate::frames::Frame;
use crate::parts::Parts;
use crate::sites::Site;
use boogie_tree::{Column, Text, VarInfo};
use nwa_base::{Letter, Nwa};
use std::alloc::AllocError;
use std::marker::Model;

/// The graph of all procedures of a program: an automaton whose states are the places, the acts of its letters, a frame
/// and a name for each procedure, the procedure of each place, entry and exit places, and the places where assertions fail.
#[derive(Drop)]
pub struct Icfg {
    parts: Parts,
}

impl Model for Icfg {
    ghost use Rattle.letter_acts.specs.Invariant.{Graph};
    ghost use Rattle.letter_acts.specs.Kept.{Keeps};
    ghost use Rattle.letter_acts.specs.Parts.{graph_of};

    ghost Value = { Graph };

    ghost view = { λ i. graph_of i.parts };

    ghost invariant = { λ i. Keeps (graph_of i.parts) };
}

impl Icfg {
    ghost use Rattle.letter_acts.specs.Acts.{plain_act, plain_acts, mark_of, marks_of, plain_frames, frame_of, act_of, back_act};
    ghost use Rattle.letter_acts.specs.Invariant.{alphabet_of, mark_at};
    ghost use Rattle.letter_acts.specs.Kept.{Keeps};
    ghost use Rattle.letter_acts.specs.Parts.{graph_of};

    /// The graph of parts that make one.
    pub(crate) fn new(parts: Parts) -> Self
        requires { Keeps (graph_of parts) }
        ensures { result ≡ graph_of parts }
    {
        Icfg { parts }
    }

    /// The automaton, whose states are the places.
    pub fn nwa(&self) -> &Nwa
        ensures value { result.now ≡ self.now.automaton }
        ensures valid { Keeps self.now }
    {
        &self.parts.nwa
    }

    /// The act of each letter, by its number.
    pub fn acts(&self) -> &[Act]
        ensures value { plain_acts result.now ≡ self.now.acts }
        ensures marks { marks_of result.now ≡ self.now.marks }
        ensures valid { Keeps self.now }
    {
        self.parts.acts.as_slice()
    }

    /// The act of the letter of this number, `None` where there is no such letter.
    pub fn act(&self, letter: u32) -> Option<&Act>
        ensures value { option_map (λ a. plain_act a.now) result ≡ slice_get self.now.acts letter }
        ensures valid { Keeps self.now }
    {
        self.parts.acts.get(letter as usize)
    }

    /// The act of the letter of this number, which there is.
    pub fn act_at(&self, letter: u32) -> &Act
        requires { letter < length self.now.acts }
        ensures value { slice_get self.now.acts letter ≡ Some (plain_act result.now) }
        ensures mark { mark_of result.now ≡ mark_at self.now letter }
        ensures valid { Keeps self.now }
    {
        &self.parts.acts[letter as usize]
    }

    /// Whether the letter of this number, which there is, is coarse: its rows leave a product free, so that they allow more than the
    /// statement does. A return's letter never is.
    pub fn is_coarse(&self, letter: u32) -> bool
        requires { letter < length self.now.acts }
        ensures value { result ≡ mark_at self.now letter }
        ensures returns { (call : ℕ) (targets : List ℕ) → slice_get self.now.acts letter ≡ Some (back_act call targets) → result ≡ false }
    {
        self.act_at(letter).is_coarse()
    }

    /// The act of the letter, `None` where it is none of the alphabet.
    pub fn act_of(&self, letter: Letter) -> Option<&Act>
        ensures value { option_map (λ a. plain_act a.now) result ≡ act_of (alphabet_of self.now) letter }
        ensures valid { Keeps self.now }
    {
        act_of(&self.parts.acts, letter)
    }

    /// The frame of each procedure.
    pub fn frames(&self) -> &[Frame]
        ensures value { plain_frames result.now ≡ self.now.frames }
        ensures valid { Keeps self.now }
    {
        self.parts.frames.as_slice()
    }

    /// The columns of a procedure, none where there is no such procedure.
    pub fn columns(&self, proc: u32) -> &[(Column, VarInfo)]
        ensures value { result.now ≡ frame_of (alphabet_of self.now) proc }
        ensures valid { Keeps self.now }
    {
        columns_of(&self.parts.frames, proc)
    }

    /// The name of each procedure.
    pub fn names(&self) -> &[Text]
        ensures value { result.now ≡ self.now.names }
        ensures valid { Keeps self.now }
    {
        self.parts.names.as_slice()
    }

    /// The procedure of each place.
    pub fn place_procs(&self) -> &[u32]
        ensures value { result.now ≡ self.now.place_procs }
        ensures valid { Keeps self.now }
    {
        self.parts.place_procs.as_slice()
    }

    /// The place where the body of each procedure begins, `None` where it has no body.
    pub fn entries(&self) -> &[Option<u32>]
        ensures value { result.now ≡ self.now.entries }
        ensures valid { Keeps self.now }
    {
        self.parts.entries.as_slice()
    }

    /// The place from which each procedure returns, `None` where it has no body.
    pub fn exits(&self) -> &[Option<u32>]
        ensures value { result.now ≡ self.now.exits }
        ensures valid { Keeps self.now }
    {
        self.parts.exits.as_slice()
    }

    /// The assertions in order, each with the place that its failures lead to.
    pub fn sites(&self) -> &[Site]
        ensures value { result.now ≡ self.now.sites }
        ensures valid { Keeps self.now }
    {
        self.parts.sites.as_slice()
    }

    /// An equal graph.
    pub fn copy(&self) -> Result<Icfg, AllocError>
        ensures { IfOk result (λ i. i ≡ self.now) }
    {
        let parts = copied_parts(&self.parts)?;
        Ok(Icfg { parts })
    }
}

/// Equal parts.
fn copied_parts(parts: &Parts) -> Result<Parts, AllocError>
    ensures { IfOk result (λ copied. graph_of copied ≡ graph_of parts.now) }
{
    let alloc = *parts.acts.allocator();
    let nwa = parts.nwa.copy()?;
    let mut copied = Parts {
        nwa,
        acts: Vec::new(alloc),
        frames: Vec::new(alloc),
        names: Vec::new(alloc),
        place_procs: Vec::new(alloc),
        entries: Vec::new(alloc),
        exits: Vec::new(alloc),
        sites: Vec::new(alloc),
    };
    copy_letters(parts, &mut copied)?;
    Ok(copied)
}

/// Puts equal acts, frames, names and numbers of places in place of those of the copy.
fn copy_letters(parts: &Parts, copied: &mut Parts) -> Result<(), AllocError>
    ensures automaton { OnOk result (copied.new.nwa ≡ copied.old.nwa) }
    ensures acts { OnOk result (plain_acts copied.new.acts.items ≡ plain_acts parts.now.acts.items) }
    ensures marks { OnOk result (marks_of copied.new.acts.items ≡ marks_of parts.now.acts.items) }
    ensures frames { OnOk result (plain_frames copied.new.frames.items ≡ plain_frames parts.now.frames.items) }
    ensures names { OnOk result (copied.new.names.items ≡ parts.now.names.items) }
    ensures place_procs { OnOk result (copied.new.place_procs.items ≡ parts.now.place_procs.items) }
    ensures entries { OnOk result (copied.new.entries.items ≡ parts.now.entries.items) }
    ensures exits { OnOk result (copied.new.exits.items ≡ parts.now.exits.items) }
    ensures sites { OnOk result (copied.new.sites.items ≡ parts.now.sites.items) }
{
    copied.acts = copied_acts(&parts.acts)?;
    copied.frames = copied_frames(&parts.frames)?;
    copied.names = copied_names(&parts.names)?;
    copy_places(parts, copied)
}

/// Puts equal numbers of places in place of those of the copy.
fn copy_places(parts: &Parts, copied: &mut Parts) -> Result<(), AllocError>
    ensures automaton { OnOk result (copied.new.nwa ≡ copied.old.nwa) }
    ensures acts { OnOk result (copied.new.acts ≡ copied.old.acts) }
    ensures frames { OnOk result (copied.new.frames ≡ copied.old.frames) }
    ensures names { OnOk result (copied.new.names ≡ copied.old.names) }
    ensures place_procs { OnOk result (copied.new.place_procs.items ≡ parts.now.place_procs.items) }
    ensures entries { OnOk result (copied.new.entries.items ≡ parts.now.entries.items) }
    ensures exits { OnOk result (copied.new.exits.items ≡ parts.now.exits.items) }
    ensures sites { OnOk result (copied.new.sites.items ≡ parts.now.sites.items) }
{
    copied.place_procs = Vec::from_slice(*parts.place_procs.allocator(), &parts.place_procs)?;
    copied.entries = Vec::from_slice(*parts.entries.allocator(), &parts.entries)?;
    copied.exits = Vec::from_slice(*parts.exits.allocator(), &parts.exits)?;
    copied.sites = Vec::from_slice(*parts.sites.allocator(), &parts.sites)?;
    Ok(())
}

/// A copy of each act.
fn copied_acts(acts: &Vec<Act>) -> Result<Vec<Act>, AllocError>
    ensures acts { IfOk result (λ copies. plain_acts copies.items ≡ plain_acts acts.now.items) }
    ensures marks { IfOk result (λ copies. marks_of copies.items ≡ marks_of acts.now.items) }
{
    let mut copies = Vec::with_capacity(*acts.allocator(), acts.len())?;
    for act in acts {
        copies.push(act.copy()?)?;
    }
    Ok(copies)
}

/// A copy of each frame.
fn copied_frames(frames: &Vec<Frame>) -> Result<Vec<Frame>, AllocError>
    ensures { IfOk result (λ copies. plain_frames copies.items ≡ plain_frames frames.now.items) }
{
    let mut copies = Vec::with_capacity(*frames.allocator(), frames.len())?;
    for frame in frames {
        copies.push(frame.copy()?)?;
    }
    Ok(copies)
}

/// A copy of each name.
fn copied_names(names: &Vec<Text>) -> Result<Vec<Text>, AllocError>
    ensures { IfOk result (λ copies. copies.items ≡ names.now.items) }
{
    let mut copies = Vec::with_capacity(*names.allocator(), names.len())?;
    for name in names {
        copies.push(name.copy()?)?;
    }
    Ok(copies)
}

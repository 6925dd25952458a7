//! A word that leads to a pair that was found.

ghost use Rattle.std.specs.Prelude.{◌≡◌, ◌<◌, ◌++◌, ◌∷◌, [], List, IfOk, OnOk};
ghost use Rattle.nwa_base.specs.declared.letters.Letter.{Letter};
ghost use Rattle.nwa_emptiness.specs.Ties.Search.{IsSearch};
ghost use Rattle.nwa_emptiness.specs.Ties.Seen.{seen};
ghost use Rattle.nwa_emptiness.specs.Ties.Tasks.{IsFilling, AreFillings, IsRest};
ghost use Rattle.nwa_emptiness.specs.Ties.Loads.{load};

use crate::search::{Link, Search};
use nwa_base::Letter;
use std::alloc::{AllocError, Global};

/// What is still to be written, from the end of a word.
#[derive(Clone, Copy)]
pub enum Task {
    /// A letter.
    Letter(Letter),
    /// A word from the entry of a pair to the pair.
    Segment(usize),
    /// A word from the start to a pair.
    Whole(usize),
}

/// The letters of a word from the start to the pair at a place. They are written from the last one on.
pub fn letters_to(alloc: Global, search: &Search, place: usize) -> Result<Vec<Letter>, AllocError>
    requires { IsSearch (seen search.now) }
    ensures { IfOk result (λ v. IsFilling (seen search.now) (Task.Whole place) v.items) }
{
    let mut letters = Vec::new(alloc);
    let mut tasks = vec![in alloc; Task::Whole(place)]?;
    while let Some(task) = tasks.pop() {
        perform(search, &mut tasks, &mut letters, task)?;
    }
    letters.reverse();
    Ok(letters)
}

/// Writes a letter, or puts in the place of a task those that make it.
fn perform(
    search: &Search,
    tasks: &mut Vec<Task>,
    letters: &mut Vec<Letter>,
    task: Task,
) -> Result<(), AllocError>
    requires { IsSearch (seen search.now) }
    ensures rest { OnOk result ((w : List Letter) → IsRest (seen search.now) tasks.new.items letters.new.items w →
        IsRest (seen search.now) (tasks.old.items ++ task ∷ []) letters.old.items w) }
    ensures less { OnOk result (load tasks.new.items < load (tasks.old.items ++ task ∷ [])) }
{
    match task {
        Task::Letter(letter) => {
            letters.push(letter)?;
            Ok(())
        }
        Task::Segment(place) => split(search, tasks, place),
        Task::Whole(place) => enter(search, tasks, place),
    }
}

/// What is to be written for the word from the entry of a pair to the pair.
fn split(search: &Search, tasks: &mut Vec<Task>, place: usize) -> Result<(), AllocError>
    requires { IsSearch (seen search.now) }
    ensures fillings { OnOk result ((w : List Letter) → AreFillings (seen search.now) tasks.new.items w →
        AreFillings (seen search.now) (tasks.old.items ++ Task.Segment place ∷ []) w) }
    ensures less { OnOk result (load tasks.new.items < load (tasks.old.items ++ Task.Segment place ∷ [])) }
{
    let Some(way) = search.way(place) else {
        return Ok(());
    };
    match way.link {
        Link::Begin => Ok(()),
        Link::Inside(before, letter) => {
            tasks.extend_from_slice(&[Task::Segment(before), Task::Letter(letter)])?;
            Ok(())
        }
        Link::Call => Ok(()),
        Link::Back(before, call, exit, letter) => {
            tasks.extend_from_slice(&[
                Task::Segment(before),
                Task::Letter(call),
                Task::Segment(exit),
                Task::Letter(letter),
            ])?;
            Ok(())
        }
    }
}

/// What is to be written for the word from the start to a pair: the word to the pair from which its call was made, the call,
/// and the word inside the call.
fn enter(search: &Search, tasks: &mut Vec<Task>, place: usize) -> Result<(), AllocError>
    requires { IsSearch (seen search.now) }
    ensures fillings { OnOk result ((w : List Letter) → AreFillings (seen search.now) tasks.new.items w →
        AreFillings (seen search.now) (tasks.old.items ++ Task.Whole place ∷ []) w) }
    ensures less { OnOk result (load tasks.new.items < load (tasks.old.items ++ Task.Whole place ∷ [])) }
{
    let Some(way) = search.way(place) else {
        return Ok(());
    };
    match way.caller {
        Some((before, call)) => {
            tasks.extend_from_slice(&[
                Task::Whole(before),
                Task::Letter(call),
                Task::Segment(place),
            ])?;
            Ok(())
        }
        None => {
            tasks.push(Task::Segment(place))?;
            Ok(())
        }
    }
}

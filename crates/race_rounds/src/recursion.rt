//! Whether a word goes through a recursion and back.

use letter_acts::{Act, Icfg};
use nwa_base::{Kind, Letter, Word};
use std::alloc::{AllocError, Global};

/// A call that is open: its callee, and how many calls of that had returned before it.
#[derive(Clone, Copy)]
struct Opened {
    callee: u32,
    returned: u32,
}

/// The callee of a call; 0 where the letter is none.
fn callee_of(icfg: &Icfg, letter: Letter) -> u32 {
    match icfg.act_of(letter) {
        Some(Act::Call { callee, .. }) => *callee,
        _ => 0,
    }
}

/// How many calls of a procedure have returned.
fn count_of(returned: &[u32], callee: u32) -> u32 {
    returned.get(callee as usize).copied().unwrap_or(0)
}

/// Counts a call that returns. Whether a call of the same procedure has returned since it was made.
fn close(returned: &mut [u32], opened: Opened) -> bool {
    let count = count_of(returned, opened.callee);
    if let Some(own) = returned.get_mut(opened.callee as usize) {
        *own = count.saturating_add(1);
    }
    count > opened.returned
}

/// Whether a returned call lies within a returned call of the same procedure.
pub(crate) fn is_recursive(alloc: Global, icfg: &Icfg, word: &Word) -> Result<bool, AllocError> {
    let mut returned = vec![in alloc; 0u32; icfg.names().len()]?;
    let mut open = Vec::new(alloc);
    recurs(icfg, word.letters(), &mut returned, &mut open)
}

/// The same of letters, where no call is open and none has returned.
fn recurs(
    icfg: &Icfg,
    letters: &[Letter],
    returned: &mut [u32],
    open: &mut Vec<Opened>,
) -> Result<bool, AllocError> {
    for letter in letters {
        match letter.kind {
            Kind::Inside => {}
            Kind::Call => {
                let callee = callee_of(icfg, *letter);
                open.push(Opened {
                    callee,
                    returned: count_of(returned, callee),
                })?;
            }
            Kind::Back => {
                if let Some(opened) = open.pop() {
                    if close(returned, opened) {
                        return Ok(true);
                    }
                }
            }
        }
    }
    Ok(false)
}

//! The search for an accepted word.

ghost use Rattle.std.specs.Prelude.{None, IfOk, OnOk};
ghost use Rattle.nwa_base.specs.Members.{Member};
ghost use Rattle.nwa_emptiness.specs.Found.{IsFound};
ghost use Rattle.nwa_emptiness.specs.Ties.Search.{IsSearch, IsPoint, Keeps};
ghost use Rattle.nwa_emptiness.specs.Ties.Seen.{seen};

use crate::search::{Link, Point, Search, Way};
use crate::spelling::letters_to;
use crate::stepping::expand;
use nwa_base::{Nwa, Word, word};
use std::alloc::{AllocError, Global};

/// What a search found.
#[derive(Drop)]
pub enum Found {
    /// An accepted word.
    Word(Word),
    /// No word is accepted.
    Empty,
}

/// An accepted word, or `Empty` exactly where there is none. Pairs are gone through in the order in which they are found.
/// `order` varies the search alone: an odd one follows calls before inside letters.
pub fn find(alloc: Global, nwa: &Nwa, order: u32) -> Result<Found, AllocError>
    ensures { IfOk result (IsFound nwa.now) }
{
    let _states = nwa.states();
    let mut search = Search::new(alloc, nwa);
    seek(alloc, &mut search, order % 2 == 1)
}

/// The start is found.
fn begin(search: &mut Search) -> Result<(), AllocError>
    requires { IsSearch (seen search.old) }
    ensures { OnOk result (Keeps (seen search.old) (seen search.new) × Member (seen search.new).pairs (None, (seen search.old).nwa.start)) }
{
    let start = search.nwa().start();
    let way = Way {
        link: Link::Begin,
        caller: None,
    };
    search.add(None, start, way)
}

/// Goes through the pairs of a search from the start on, along calls first or along inside letters first.
fn seek(alloc: Global, search: &mut Search, calls_first: bool) -> Result<Found, AllocError>
    requires { IsSearch (seen search.old) }
    ensures { IfOk result (IsFound (seen search.old).nwa) }
{
    let nwa = search.nwa();
    begin(search)?;
    let mut place = 0;
    while let Some(point) = search.point(place) {
        if nwa.is_final(point.state) {
            return spelled(alloc, search, point);
        }
        expand(search, point, calls_first)?;
        place += 1;
    }
    Ok(Found::Empty)
}

/// The word that leads to a pair with a final state.
fn spelled(alloc: Global, search: &Search, point: Point) -> Result<Found, AllocError>
    requires search { IsSearch (seen search.now) }
    requires point { IsPoint (seen search.now) point }
    requires ends { Member (seen search.now).nwa.finals point.state }
    ensures { IfOk result (IsFound (seen search.now).nwa) }
{
    let letters = letters_to(alloc, search, point.place)?;
    Ok(Found::Word(word(letters).unwrap()))
}

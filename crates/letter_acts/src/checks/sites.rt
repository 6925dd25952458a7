//! Sites: numbered from 1 in order, at places that differ and are exactly the final states.

ghost use Rattle.std.specs.Prelude.{◌≡◌, ◌↔◌, IsTrue};
ghost use Rattle.std.specs.List.{AllByRecursion};
ghost use Rattle.nwa_base.specs.Members.{Member, SameMembers};
ghost use Rattle.letter_acts.specs.Invariant.{AreDistinct, AreNumbered, site_places, HasSites};
ghost use Rattle.letter_acts.specs.Parts.{graph_of};

use crate::checks::distinct::ascend;
use crate::parts::Parts;
use crate::sites::Site;
use nwa_base::Nwa;

fn are_numbered(sites: &[Site]) -> bool
    ensures { IsTrue result ↔ AreNumbered 1 sites.now }
{
    for i in 0..sites.len() {
        if sites[i].id.number as usize != i + 1 {
            return false;
        }
    }
    true
}

/// Whether a failure leads to the place.
fn has_place(sites: &[Site], place: u32) -> bool
    ensures { IsTrue result ↔ Member (site_places sites.now) place }
{
    sites.iter().any(|site| site.place == place)
}

fn places_differ(sites: &[Site]) -> bool
    ensures { IsTrue result ↔ AreDistinct (site_places sites.now) }
{
    for i in 0..sites.len() {
        if has_place(&sites[i + 1..], sites[i].place) {
            return false;
        }
    }
    true
}

/// Whether the sites have these places in this order.
fn have_places(sites: &[Site], places: &[u32]) -> bool
    ensures { IsTrue result ↔ (site_places sites.now ≡ places.now) }
{
    if sites.len() != places.len() {
        return false;
    }
    for i in 0..sites.len() {
        if sites[i].place != places[i] {
            return false;
        }
    }
    true
}

fn places_are_final(sites: &[Site], nwa: &Nwa) -> bool
    ensures { IsTrue result ↔ AllByRecursion (λ s. Member nwa.now.finals s.place) sites.now }
{
    sites.iter().all(|site| nwa.is_final(site.place))
}

fn finals_have_sites(sites: &[Site], finals: &[u32]) -> bool
    ensures { IsTrue result ↔ AllByRecursion (λ q. Member (site_places sites.now) q) finals.now }
{
    finals.iter().all(|place| has_place(sites, *place))
}

/// Whether the places of the sites are exactly the final states.
fn places_match(sites: &[Site], nwa: &Nwa) -> bool
    ensures { IsTrue result ↔ SameMembers (site_places sites.now) nwa.now.finals }
{
    places_are_final(sites, nwa) && finals_have_sites(sites, nwa.finals())
}

/// Whether the places of the sites differ and are exactly the final states.
fn places_fit(sites: &[Site], nwa: &Nwa) -> bool
    ensures { IsTrue result ↔ (AreDistinct (site_places sites.now) × SameMembers (site_places sites.now) nwa.now.finals) }
{
    // So a lowered program has them. Others are compared pair by pair.
    let finals = nwa.finals();
    if ascend(finals) && have_places(sites, finals) {
        return true;
    }
    places_differ(sites) && places_match(sites, nwa)
}

pub(super) fn has_sites(parts: &Parts) -> bool
    ensures { IsTrue result ↔ HasSites (graph_of parts.now) }
{
    are_numbered(parts.sites.as_slice()) && places_fit(parts.sites.as_slice(), &parts.nwa)
}

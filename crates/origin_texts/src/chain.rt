//! The links of a window of a session's past.
ghost use Rattle.std.specs.Prelude.{◌≡◌, ◌≤◌, ℕ, IfOk, IfSome, ◌&&◌};
ghost use Rattle.origin_texts.specs.Log as spec;
ghost use Rattle.origin_texts.specs.Chain.{History};
ghost use Rattle.origin_texts.specs.Log.{Follows, IsHistory, IsIn, IsLog};

use crate::log::Link;
use origins::Place;
use std::alloc::{AllocError, Global};

/// Whether two places are the same.
fn is_same(place: Place, other: Place) -> bool
    ensures { result ≡ spec.is_same place other }
{
    match (place, other) {
        (Place::Register(n), Place::Register(m)) => n == m,
        (Place::Special(n), Place::Special(m)) => n == m,
        (Place::Granule(n), Place::Granule(m)) => n == m,
        _ => false,
    }
}

/// Whether an entry of a log is of one of the first events, and of this place.
fn is_of(link: Link, place: Place, events: u64) -> bool
    ensures { result ≡ spec.is_of link place events }
{
    is_same(link.place, place) && link.found.before < events
}

/// The links of a log, the newest first, and the place that is followed before its events.
pub(crate) struct Followed {
    /// The links.
    pub(crate) links: Vec<Link>,
    /// The place.
    pub(crate) next: Option<Place>,
}

/// Follows a place through a log of events, from the last of them on.
pub(crate) fn follow(
    alloc: Global,
    log: &[Link],
    place: Place,
    events: u64,
) -> Result<Followed, AllocError>
    ensures { IfOk result (λ f. (h : History) (from : ℕ) → IsHistory h → IsIn place h → from ≤ events → IsLog h from events log.now
        → Follows h from events place f.links.items f.next) }
{
    let mut links = Vec::new(alloc);
    let mut place = place;
    let mut events = events;
    let mut left = log.len();
    while left > 0 {
        left -= 1;
        let link = log[left];
        if !is_of(link, place, events) {
            continue;
        }
        links.push(link)?;
        let Some(from) = link.found.making.source() else {
            return Ok(Followed { links, next: None });
        };
        place = from;
        events = link.found.before;
    }
    Ok(Followed {
        links,
        next: Some(place),
    })
}

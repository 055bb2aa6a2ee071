//! The places of all requests of a part, by rising position.
ghost use Rattle.std.specs.Prelude.{◌≡◌, ◌+◌, ◌≤◌, ◌++◌, ◌∷◌, [], length, map, nat_lt, IfOk, OnOk, OnErr};
ghost use Rattle.std.specs.List.{prefix_len};
ghost use Rattle.ds_gather.specs.Numbered.{came_in};
ghost use Rattle.ds_gather.specs.Places.{change_at, filled, grown, handed, place_for, reply_from, wanted_in, EachPlace, FoundIf, HasRoom, Rises};

use crate::arrival::Arrival;
use crate::came::Came;
use crate::place::Place;
use crate::room::Room;
use ds_kind::{Item, Replies, Reply};
use std::alloc::{AllocError, Global};

/// A place for each item, to which nothing came yet.
pub(crate) fn places_for(alloc: Global, items: &[Item]) -> Result<Vec<Place>, AllocError>
    ensures { IfOk result (λ ps. ps.items ≡ map place_for items.now) }
{
    let mut places = Vec::with_capacity(alloc, items.len())?;
    'items: for item in items {
        places.push(Place::new(alloc, item))?;
    }
    Ok(places)
}

// The index of the first place from the position on, found by halving.
fn place_at(places: &[Place], pos: u32) -> usize
    requires { Rises (wanted_in places.now) }
    ensures place { result ≡ prefix_len (λ p. nat_lt p.wanted.pos pos) places.now }
    ensures within { result ≤ length places.now }
{
    places.partition_point(|place| place.wanted.pos < pos)
}

// The index of the place at the position, if there is one.
fn place_of(places: &[Place], pos: u32) -> Option<usize>
    requires { Rises (wanted_in places.now) }
    ensures { FoundIf pos places.now result }
{
    let i = place_at(places, pos);
    let place = places.get(i)?;
    if place.wanted.pos == pos {
        Some(i)
    } else {
        None
    }
}

/// Makes room for an answer at the position. Want of memory leaves all as it was.
pub(crate) fn make_room(places: &mut Vec<Place>, pos: u32, reply: &Reply) -> Result<(), AllocError>
    requires { Rises (wanted_in (places.old).items) }
    ensures ok { OnOk result ((places.new).items ≡ map (change_at pos (grown reply.now)) (places.old).items) }
    ensures err { OnErr result ((places.new).items ≡ (places.old).items) }
{
    match place_of(places.as_slice(), pos) {
        Some(i) => {
            let place = &mut places[i];
            place.more(reply)
        }
        None => Ok(()),
    }
}

// Puts what came at its place, where there is room for it.
fn hand_over(places: &mut Vec<Place>, arrival: Arrival)
    requires rise { Rises (wanted_in (places.old).items) }
    requires room { EachPlace (HasRoom (arrival ∷ [])) (places.old).items }
    ensures { (places.new).items ≡ map (change_at arrival.pos (handed arrival)) (places.old).items }
{
    match place_of(places.as_slice(), arrival.pos) {
        Some(i) => {
            let place = &mut places[i];
            place.hand(arrival);
        }
        None => (),
    }
}

/// The places with what came for each, one after another.
pub(crate) fn distributed(places: Vec<Place>, got: Vec<Came>) -> Vec<Place>
    requires rise { Rises (wanted_in places.items) }
    requires room { EachPlace (HasRoom (came_in got.items)) places.items }
    ensures all { result.items ≡ map (filled (came_in got.items)) places.items }
    ensures room { EachPlace (HasRoom []) result.items }
{
    let mut places = places;
    'got: for came in got {
        hand_over(&mut places, came.arrival);
    }
    places
}

/// The reply of each place.
pub(crate) fn replies_of(places: Vec<Place>, replies: Room<Reply>) -> Replies
    requires ready { EachPlace (HasRoom []) places.items }
    requires room { length replies.items + length places.items ≤ replies.size }
    ensures { result ≡ replies.items ++ map reply_from places.items }
{
    let mut replies = replies;
    'places: for place in places {
        replies.push(place.reply());
    }
    Replies::from_vec(replies.into_vec())
}

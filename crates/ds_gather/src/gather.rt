//! The gatherer of one part.
ghost use Rattle.std.specs.Prelude.{◌≡◌, ◌++◌, ◌∷◌, [], length, map, take, IfOk, OnOk, OnErr};
ghost use Rattle.ds_cover.specs.Items.{PositionsRise};
ghost use Rattle.ds_gather.specs.Gathered.{wanted, arrival, arrivals, gathered};
ghost use Rattle.ds_kind.specs.Request.{span_of};

use crate::arrival::Arrival;
use crate::came::{Came, in_key_order};
use crate::place::Place;
use crate::places::{distributed, make_room, places_for, replies_of};
use crate::room::Room;
use ds_base::{Copies, Key};
use ds_kind::{Bounds, Item, Part, Piece, Replies, Reply};
use std::alloc::{AllocError, Global};
use std::marker::Model;

/// Makes the replies of a part out of what its pieces were answered. A contract sees what is wanted
/// of each request and what came so far, in the order of arrival.
#[derive(Drop)]
pub struct Gather {
    places: Vec<Place>,
    got: Vec<Came>,
    replies: Room<Reply>,
}

impl Model for Gather {
    ghost use Rattle.std.specs.Prelude.{◌≡◌, ◌≤◌, [], length};
    ghost use Rattle.ds_gather.specs.Gathering.{Gathering};
    ghost use Rattle.ds_gather.specs.Numbered.{came_in, AreNumbered};
    ghost use Rattle.ds_gather.specs.Places.{wanted_in, IsReady};

    ghost Value = { Gathering };

    ghost view = { λ g. record { wanted = wanted_in g.places.items; got = came_in g.got.items } };

    ghost invariant = { λ g. IsReady (came_in g.got.items) g.places.items × (g.replies.items ≡ []) × (length g.places.items ≤ g.replies.size) × AreNumbered g.got.items };
}

// Where the item's span starts.
fn start_of(alloc: Global, item: &Item) -> Result<Key, AllocError>
    ensures { IfOk result (λ k. k ≡ (span_of item.now.request).start) }
{
    match item.request.bounds() {
        Bounds::Point(key) => key.copy(alloc),
        Bounds::Between(start, _) => start.copy(alloc),
    }
}

impl Gather {
    /// A gatherer for the part, to which nothing came yet.
    pub fn new(alloc: Global, part: &Part) -> Result<Gather, AllocError>
        requires { PositionsRise part.now.items }
        ensures { IfOk result (λ g. g ≡ record { wanted = map wanted part.now.items; got = [] }) }
    {
        let places = places_for(alloc, part.items.as_slice())?;
        let mut replies = Room::new(alloc);
        replies.more(part.items.len())?;
        Ok(Gather {
            places,
            got: Vec::new(alloc),
            replies,
        })
    }

    // How many answers came.
    fn count(&self) -> usize
        ensures { result ≡ length self.now.got }
    {
        self.got.len()
    }

    // Takes back all answers but the first ones.
    fn back_to(&mut self, count: usize)
        ensures { self.new ≡ record { wanted = self.old.wanted; got = take count self.old.got } }
    {
        self.got.truncate(count);
    }

    // Puts the answer of one item. Want of memory leaves all as it was.
    fn receive(&mut self, alloc: Global, item: &Item, reply: Reply) -> Result<(), AllocError>
        ensures ok { OnOk result (self.new ≡ record { wanted = self.old.wanted; got = self.old.got ++ arrival item.now reply ∷ [] }) }
        ensures err { OnErr result (self.new ≡ self.old) }
    {
        let start = start_of(alloc, item)?;
        make_room(&mut self.places, item.pos, &reply)?;
        let arrival = Arrival {
            pos: item.pos,
            start,
            reply,
        };
        let number = self.got.len();
        self.got.push(Came { number, arrival })?;
        Ok(())
    }

    /// Puts the answers of a piece: a reply for each of its items, in order. The piece's items may
    /// come in any order, and an item at no position of the part is passed over in the end. Want of
    /// memory leaves all as it was.
    pub fn put(&mut self, alloc: Global, piece: &Piece, replies: Replies) -> Result<(), AllocError>
        ensures ok { OnOk result (self.new ≡ record { wanted = self.old.wanted; got = self.old.got ++ arrivals piece.now.items replies }) }
        ensures err { OnErr result (self.new ≡ self.old) }
    {
        let count = self.count();
        let mut items = piece.items.as_slice();
        'replies: for reply in replies.into_vec() {
            let Some((item, others)) = items.split_first() else {
                return Ok(());
            };
            items = others;
            if self.receive(alloc, item, reply).is_err() {
                self.back_to(count);
                return Err(AllocError);
            }
        }
        Ok(())
    }

    /// One reply for each item of the part, made of what came for it, joined in the order in which
    /// the items that came start, for a reverse scan from the last down: so rows and keys are in key
    /// order where those of each piece are. A resume span is the one that came, and a request for
    /// which nothing came has its kind's empty reply. It takes no memory, and the time of one sort,
    /// whatever the order of arrival.
    pub fn take(self) -> Replies
        ensures { result ≡ gathered self.wanted self.got }
    {
        let Gather {
            places,
            got,
            replies,
        } = self;
        replies_of(distributed(places, in_key_order(got)), replies)
    }
}

//! The resume spans of a part whose limit is used up.
ghost use Rattle.std.specs.Prelude.{◌≡◌, true, length, IfOk, OnOk, OnErr};
ghost use Rattle.std.specs.List.{list_all};
ghost use Rattle.std.specs.Option.{option_copied};
ghost use Rattle.ds_kind.specs.Asks.{has_proper_span};
ghost use Rattle.ds_kind.specs.Parts.{requests_of};
ghost use Rattle.ds_kind.specs.Filled.{filled};
ghost use Rattle.ds_limit.specs.Rests.{are_inside, rests, with_rests};

use crate::rest::rest_of;
use ds_base::{Key, Span};
use ds_kind::{Part, Replies};
use std::alloc::{AllocError, Global};
use std::mem;

// What is left of each item's span.
fn rests_of(
    alloc: Global,
    part: &Part,
    replies: &Replies,
    seek: Option<&Key>,
) -> Result<Vec<Option<Span>>, AllocError>
    requires proper { list_all has_proper_span (requests_of part.now.items) ≡ true }
    requires inside { are_inside part.now.items replies.now ≡ true }
    ensures { IfOk result (λ v. v.items ≡ rests part.now.dir (option_copied seek.entry) part.now.items replies.now) }
{
    let items = part.items.as_slice();
    let replies = replies.as_slice();
    let mut rests = Vec::new(alloc);
    for i in 0..items.len() {
        let stopped = replies[i].resume.as_ref();
        rests.push(rest_of(alloc, part.dir, &items[i].request, stopped, seek)?)?;
    }
    Ok(rests)
}

// Puts each of these into its reply.
fn put_rests(alloc: Global, replies: &mut Replies, rests: Vec<Option<Span>>)
    requires { length rests.items ≡ length replies.old }
    ensures { replies.new ≡ with_rests replies.old rests.items }
{
    let mut list = mem::replace(replies, Replies::new(alloc)).into_vec();
    let mut rests = rests;
    while let Some(rest) = rests.pop() {
        let reply = &mut list[rests.len()];
        reply.resume = rest;
    }
    *replies = Replies::from_vec(list);
}

/// Gives each reply of a part the resume span that a used up limit leaves, by the part's direction.
/// A reply that stopped inside its item's span is resumed where it stopped, up to the far edge of
/// that span. Of any other item that part of its span is left which lies from the seek key on, in
/// reverse below it: there the rest of the part begins when the limit is used up, and `None` says
/// that nothing of the part is left. The bodies stay.
///
/// There must be one reply for each item, and each resume span so far must lie in its item's span.
/// Want of memory leaves the replies as they were.
pub fn fill_rest(
    alloc: Global,
    part: &Part,
    replies: &mut Replies,
    seek: Option<&Key>,
) -> Result<(), AllocError>
    requires proper { list_all has_proper_span (requests_of part.now.items) ≡ true }
    requires inside { are_inside part.now.items replies.old ≡ true }
    ensures ok { OnOk result (replies.new ≡ filled part.now.dir (option_copied seek.entry) part.now.items replies.old) }
    ensures err { OnErr result (replies.new ≡ replies.old) }
{
    let rests = rests_of(alloc, part, replies, seek)?;
    put_rests(alloc, replies, rests);
    Ok(())
}

//! What replies leave of a limit.
ghost use Rattle.std.specs.Prelude.{◌≡◌, ◌-◌};
ghost use Rattle.ds_kind.specs.Left.{left_after, taken_by, taken_in};

use ds_kind::{Body, Left, Replies, Reply};

/// How many rows, deleted keys or found gets it holds.
fn taken_in(body: &Body) -> usize
    ensures { result ≡ taken_in body.now }
{
    match body {
        Body::Got(Some(_)) => 1,
        Body::Rows(rows) => rows.len(),
        Body::Gone(keys) => keys.len(),
        Body::Got(None) | Body::Unit | Body::Number(_) | Body::Ended(_) | Body::Found(_) => 0,
    }
}

/// What is left once so many are taken, if anything is.
fn less(rest: u32, taken: usize) -> u32
    ensures { result ≡ rest - taken }
{
    if taken < rest as usize {
        rest - taken as u32
    } else {
        0
    }
}

/// What is left once all that the replies hold is taken, if anything is.
fn less_all(rest: u32, replies: &[Reply]) -> u32
    ensures { result ≡ rest - taken_by replies.now }
{
    let mut left = rest;
    'replies: for reply in replies {
        left = less(left, taken_in(&reply.body));
    }
    left
}

/// Takes what the replies hold off the limit, if there is one. Where they hold more than is left,
/// which no cluster answers, nothing is left.
pub(crate) fn spend(left: &mut Left, replies: &Replies)
    ensures { left.new ≡ left_after left.old replies.now }
{
    if let Some(rest) = left.rest() {
        *left = Left::new(Some(less_all(rest, replies.as_slice())));
    }
}

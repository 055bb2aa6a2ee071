//! What is left of a batch's limit.
ghost use Rattle.std.specs.Prelude.{◌≡◌, ◌<◌, ◌^◌};
ghost use Rattle.ds_kind.specs.Left.{taken_in, taken_by, left_after, is_used_up, LeavesRoom};

use crate::reply::{Body, Replies};
use std::marker::Model;

/// How many rows, deleted keys and found gets a batch may still answer, if it has a limit. A
/// contract sees the number, or none.
#[derive(Drop)]
pub struct Left {
    rest: Option<u32>,
}

impl Model for Left {
    ghost use Rattle.std.specs.Prelude.{ℕ, Option};

    ghost Value = { Option ℕ };

    ghost view = { λ l. l.rest };
}

// How many rows, deleted keys or found gets it holds.
fn taken_in(body: &Body) -> usize
    ensures { result ≡ taken_in body.now }
{
    match body {
        Body::Got(Some(_)) => 1,
        Body::Rows(rows) => rows.len(),
        Body::Gone(keys) => keys.len(),
        Body::Got(None) | Body::Unit | Body::Number(_) | Body::Ended(_) | Body::Found(_) => 0,
    }
}

// How many rows, deleted keys and found gets they hold.
fn taken_by(replies: &Replies) -> usize
    requires { taken_by replies.now < 2 ^ 64 }
    ensures { result ≡ taken_by replies.now }
{
    let mut taken = 0;
    'replies: for reply in replies.as_slice() {
        taken += taken_in(&reply.body);
    }
    taken
}

impl Left {
    /// All of the limit, if there is one.
    pub fn new(limit: Option<u32>) -> Left
        ensures { result ≡ limit }
    {
        Left { rest: limit }
    }

    /// What is left; `None` exactly where there is no limit.
    pub fn rest(&self) -> Option<u32>
        ensures { result ≡ self.now }
    {
        self.rest
    }

    /// Takes what the replies hold off the limit: each row, each deleted key and each found get
    /// counts one. They may hold at most what is left. True exactly where a limit is now used up.
    pub fn spend(&mut self, replies: &Replies) -> bool
        requires { LeavesRoom self.old replies.now }
        ensures left { self.new ≡ left_after self.old replies.now }
        ensures used_up { result ≡ is_used_up self.new }
    {
        match self.rest {
            Some(rest) => {
                let rest = rest - taken_by(replies) as u32;
                self.rest = Some(rest);
                rest == 0
            }
            None => false,
        }
    }
}

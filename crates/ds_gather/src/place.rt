//! What is kept for one request: what came for it, and room for the whole of its reply.
ghost use Rattle.std.specs.Prelude.{◌≡◌, ◌+◌, ◌<◌, ◌≤◌, ◌++◌, [], length, Some, OnOk, OnErr};
ghost use Rattle.std.specs.Option.{option_or};
ghost use Rattle.ds_kind.specs.Bodies.{empty_body};
ghost use Rattle.ds_gather.specs.Gathered.{rows_in, keys_in, all_rows, all_keys, resume_at, body_at, given, in_direction};

use crate::arrival::{Arrival, Wanted};
use crate::room::Room;
use ds_base::{Key, Keys, Span};
use ds_kind::{Body, Item, Reply, Request, Row, Rows, TxnStatus};
use std::alloc::{AllocError, Global};

/// What came for a request, in key order, and empty lists with room for all its rows or keys.
#[derive(Drop)]
pub(crate) struct Place {
    pub(crate) wanted: Wanted,
    pub(crate) runs: Room<Arrival>,
    pub(crate) rows: Room<Row>,
    pub(crate) keys: Room<Key>,
}

// What a request is answered over no key.
fn empty_body(alloc: Global, request: &Request) -> Body
    ensures { result ≡ empty_body request.now }
{
    match request {
        Request::Get(_) => Body::Got(None),
        Request::Scan(_) | Request::ReverseScan(_) => Body::Rows(Rows::new(alloc)),
        Request::Increment(_) => Body::Number(0),
        Request::DeleteRange(_) => Body::Gone(Keys::new(alloc)),
        Request::EndTxn(args) => Body::Ended(if args.commit {
            TxnStatus::Committed
        } else {
            TxnStatus::Aborted
        }),
        Request::QueryIntent(_) => Body::Found(false),
        Request::Put(_)
        | Request::ConditionalPut(_)
        | Request::InitPut(_)
        | Request::Delete(_)
        | Request::ResolveIntent(_)
        | Request::ResolveIntentRange(_)
        | Request::AdminSplit(_)
        | Request::AdminTransferLease(_) => Body::Unit,
    }
}

// Moves the rows of a body, if it has any, to the end.
fn add_rows(rows: &mut Room<Row>, body: Body)
    requires { length rows.old.items + length (rows_in body) ≤ rows.old.size }
    ensures { rows.new ≡ record { items = rows.old.items ++ rows_in body; size = rows.old.size } }
{
    match body {
        Body::Rows(more) => rows.append(more.into_vec()),
        Body::Got(_)
        | Body::Unit
        | Body::Number(_)
        | Body::Gone(_)
        | Body::Ended(_)
        | Body::Found(_) => (),
    }
}

// Moves the keys of a body, if it has any, to the end.
fn add_keys(keys: &mut Room<Key>, body: Body)
    requires { length keys.old.items + length (keys_in body) ≤ keys.old.size }
    ensures { keys.new ≡ record { items = keys.old.items ++ keys_in body; size = keys.old.size } }
{
    match body {
        Body::Gone(more) => keys.append(more.into_vec()),
        Body::Got(_)
        | Body::Rows(_)
        | Body::Unit
        | Body::Number(_)
        | Body::Ended(_)
        | Body::Found(_) => (),
    }
}

// How many rows a body has.
fn count_rows(body: &Body) -> usize
    ensures { result ≡ length (rows_in body.now) }
{
    match body {
        Body::Rows(rows) => rows.len(),
        Body::Got(_)
        | Body::Unit
        | Body::Number(_)
        | Body::Gone(_)
        | Body::Ended(_)
        | Body::Found(_) => 0,
    }
}

// How many keys a body has.
fn count_keys(body: &Body) -> usize
    ensures { result ≡ length (keys_in body.now) }
{
    match body {
        Body::Gone(keys) => keys.len(),
        Body::Got(_)
        | Body::Rows(_)
        | Body::Unit
        | Body::Number(_)
        | Body::Ended(_)
        | Body::Found(_) => 0,
    }
}

// The first of two resume spans that there is.
fn first_of(first: Option<Span>, second: Option<Span>) -> Option<Span>
    ensures { result ≡ option_or first second }
{
    match first {
        Some(span) => Some(span),
        None => second,
    }
}

// The reply of a request with rows.
fn join_rows(arrivals: Vec<Arrival>, rows: Room<Row>) -> Reply
    requires { length rows.items + length (all_rows arrivals.items) ≤ rows.size }
    ensures { result ≡ record { body = Body.Rows (rows.items ++ all_rows arrivals.items); resume = resume_at arrivals.items } }
{
    let mut rows = rows;
    let mut resume = None;
    'arrivals: for arrival in arrivals {
        add_rows(&mut rows, arrival.reply.body);
        resume = first_of(resume, arrival.reply.resume);
    }
    Reply {
        body: Body::Rows(Rows::from_vec(rows.into_vec())),
        resume,
    }
}

// The reply of a request with deleted keys.
fn join_keys(arrivals: Vec<Arrival>, keys: Room<Key>) -> Reply
    requires { length keys.items + length (all_keys arrivals.items) ≤ keys.size }
    ensures { result ≡ record { body = Body.Gone (keys.items ++ all_keys arrivals.items); resume = resume_at arrivals.items } }
{
    let mut keys = keys;
    let mut resume = None;
    'arrivals: for arrival in arrivals {
        add_keys(&mut keys, arrival.reply.body);
        resume = first_of(resume, arrival.reply.resume);
    }
    Reply {
        body: Body::Gone(Keys::from_vec(keys.into_vec())),
        resume,
    }
}

// The first of two bodies that there is.
fn body_or(first: Option<Body>, second: Body) -> Option<Body>
    ensures { result ≡ option_or first (Some second) }
{
    match first {
        Some(body) => Some(body),
        None => Some(second),
    }
}

fn given(empty: Body, body: Option<Body>) -> Body
    ensures { result ≡ given empty body }
{
    match body {
        Some(body) => body,
        None => empty,
    }
}

// The reply of a request at one key.
fn first_reply(arrivals: Vec<Arrival>, empty: Body) -> Reply
    ensures { result ≡ record { body = given empty (body_at arrivals.items); resume = resume_at arrivals.items } }
{
    let mut body = None;
    let mut resume = None;
    'arrivals: for arrival in arrivals {
        body = body_or(body, arrival.reply.body);
        resume = first_of(resume, arrival.reply.resume);
    }
    Reply {
        body: given(empty, body),
        resume,
    }
}

// The arrivals in the direction of the kind.
fn directed(arrivals: Vec<Arrival>, down: bool) -> Vec<Arrival>
    ensures { result.items ≡ in_direction down arrivals.items }
{
    if down {
        let mut turned = arrivals;
        turned.as_mut_slice().reverse();
        turned
    } else {
        arrivals
    }
}

impl Place {
    ghost use Rattle.ds_gather.specs.Places.{grown, handed, place_for, HasRoom, reply_from};

    /// Nothing came yet for the item.
    pub(crate) fn new(alloc: Global, item: &Item) -> Place
        ensures { result ≡ place_for item.now }
    {
        Place {
            wanted: Wanted {
                pos: item.pos,
                down: item.request.flags().reverse,
                empty: empty_body(alloc, &item.request),
            },
            runs: Room::new(alloc),
            rows: Room::new(alloc),
            keys: Room::new(alloc),
        }
    }

    /// Makes room for one more answer. Want of memory leaves all as it was.
    pub(crate) fn more(&mut self, reply: &Reply) -> Result<(), AllocError>
        ensures ok { OnOk result (self.new ≡ grown reply.now self.old) }
        ensures err { OnErr result (self.new ≡ self.old) }
    {
        let runs = self.runs.size();
        let rows = self.rows.size();
        self.runs.more(1)?;
        if self.rows.more(count_rows(&reply.body)).is_err() {
            self.runs.cut_back(runs);
            return Err(AllocError);
        }
        if self.keys.more(count_keys(&reply.body)).is_err() {
            self.runs.cut_back(runs);
            self.rows.cut_back(rows);
            return Err(AllocError);
        }
        Ok(())
    }

    /// Puts what came at the end, where there is room for it.
    pub(crate) fn hand(&mut self, arrival: Arrival)
        requires { length self.old.runs.items < self.old.runs.size }
        ensures { self.new ≡ handed arrival self.old }
    {
        self.runs.push(arrival);
    }

    /// The reply made of all that came.
    pub(crate) fn reply(self) -> Reply
        requires { HasRoom [] self }
        ensures { result ≡ reply_from self }
    {
        let Place {
            wanted,
            runs,
            rows,
            keys,
        } = self;
        let arrivals = directed(runs.into_vec(), wanted.down);
        match wanted.empty {
            Body::Rows(_) => join_rows(arrivals, rows),
            Body::Gone(_) => join_keys(arrivals, keys),
            empty => first_reply(arrivals, empty),
        }
    }
}

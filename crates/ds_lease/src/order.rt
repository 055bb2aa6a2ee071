//! The replicas of a range, in the order in which they are tried.
ghost use Rattle.std.specs.Prelude.{◌≡◌, ◌==◌, true, IfSome};
ghost use Rattle.std.specs.List.{position};
ghost use Rattle.ds_desc.specs.Replicas.{AreReplicas, no_twice};
ghost use Rattle.ds_lease.specs.Turns.{IsOrder, is_among, without_node, order_of, fronted, next_of, advanced};

use arrayvec::ArrayVec;
use ds_desc::{Info, Nodes};
use std::marker::Model;

/// The replicas of a range, and those of them that are still to be tried, the next one first. It
/// lies in two arrays and takes no memory.
#[derive(Drop)]
pub struct Order {
    replicas: ArrayVec<u8, 7>,
    waiting: ArrayVec<u8, 7>,
}

impl Model for Order {
    ghost use Rattle.ds_lease.specs.Turns.{Places, IsOrder};

    ghost Value = { Places };

    ghost view = { λ o. record { replicas = o.replicas.items; waiting = o.waiting.items } };

    ghost invariant = { λ o. IsOrder (record { replicas = o.replicas.items; waiting = o.waiting.items }) };
}

// The nodes, in an array.
fn places_of(nodes: &Nodes) -> ArrayVec<u8, 7>
    ensures places { result.items ≡ nodes.now }
    ensures replicas { AreReplicas nodes.now }
{
    // By their number they fit.
    let all = &nodes.as_slice()[..nodes.len()];
    match ArrayVec::try_from(all) {
        Ok(places) => places,
        Err(_) => unreachable!(),
    }
}

// Where the node stands first.
fn place_of(nodes: &[u8], node: u8) -> Option<usize>
    ensures { result ≡ position (λ n. n == node) nodes.now }
{
    nodes.iter().position(|n| *n == node)
}

// Takes the node out, if it is there.
fn take_out(nodes: &mut ArrayVec<u8, 7>, node: u8)
    requires { no_twice nodes.old.items ≡ true }
    ensures { nodes.new.items ≡ without_node node nodes.old.items }
{
    if let Some(place) = place_of(nodes.as_slice(), node) {
        nodes.remove(place);
    }
}

impl Order {
    /// Does nothing: its clause tells what every order keeps: at most seven replicas, of which those
    /// that wait stand once each.
    pub fn known(&self)
        ensures { IsOrder self.now }
    {
        let _ = &self.waiting;
    }

    /// The leaseholder first, then the other replicas in their order. A lease whose node is no
    /// replica changes nothing of that order.
    pub fn of(info: &Info) -> Order
        ensures { result ≡ order_of info.now }
    {
        let nodes = &info.desc.nodes;
        let mut order = Order {
            replicas: places_of(nodes),
            waiting: places_of(nodes),
        };
        order.front(info.lease.node);
        order
    }

    /// Makes the node the next one, also where it was tried already; one that still waits moves and
    /// doesn't stand twice. False exactly where the node is no replica, and nothing changes then.
    pub fn front(&mut self, node: u8) -> bool
        ensures replica { result ≡ is_among node self.old.replicas }
        ensures order { self.new ≡ fronted node self.old }
    {
        if !self.replicas.as_slice().contains(&node) {
            return false;
        }
        take_out(&mut self.waiting, node);
        self.waiting.insert(0, node);
        true
    }

    /// The next node, which no longer waits. `None` exactly where each was taken and none was put in
    /// front since.
    pub fn next(&mut self) -> Option<u8>
        ensures node { result ≡ next_of self.old }
        ensures replica { IfSome result (λ n. is_among n self.old.replicas ≡ true) }
        ensures order { self.new ≡ advanced self.old }
    {
        self.waiting.pop_at(0)
    }
}

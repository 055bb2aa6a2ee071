//! How a range's lease is given to a node, and how the range is moved to other nodes.
ghost use Rattle.std.specs.Prelude.{◌≡◌, ◌<◌, ◌+◌, ◌&&◌, ◌||◌, ◌==◌, not, true, nat_eq, if◌then◌else◌};
ghost use Rattle.std.specs.Cmp.Lexicographic.{pointwise};
ghost use Rattle.ds_rule.specs.World.{first_or};
ghost use Rattle.ds_rule.specs.Shifts.{can_lease, can_move, has_next, is_replica, lease_among, with_lease, with_nodes};

use crate::state::RangeState;
use ds_desc::{Info, Lease, Nodes};

/// Whether one more is still a number of 32 bits.
fn has_next(number: u32) -> bool
    ensures { result ≡ has_next number }
{
    number < u32::MAX
}

/// Whether the node is a replica that doesn't hold the lease, and there is a next number.
fn can_take(info: &Info, node: u8) -> bool
    ensures { result ≡ (is_replica node info.now.desc.nodes && not (info.now.lease.node == node) && has_next info.now.lease.number) }
{
    info.desc.nodes.contains(node) && info.lease.node != node && has_next(info.lease.number)
}

/// The lease is with the node, under the next number.
fn take_lease(info: &mut Info, node: u8)
    requires { has_next info.old.lease.number ≡ true }
    ensures { info.new ≡ record (info.old) { lease = record { node = node; number = info.old.lease.number + 1 } } }
{
    let number = info.lease.number + 1;
    info.lease = Lease { node, number };
}

fn same_nodes(nodes: &Nodes, others: &Nodes) -> bool
    ensures { result ≡ pointwise nat_eq nodes.now others.now }
{
    nodes.as_slice() == others.as_slice()
}

fn first_of(nodes: &Nodes) -> u8
    ensures { result ≡ first_or 0 nodes.now }
{
    match nodes.get(0) {
        Some(node) => *node,
        None => 0,
    }
}

/// The lease among these nodes: it stays with its holder where that is one of them.
fn lease_among(nodes: &Nodes, lease: Lease) -> Lease
    requires { (is_replica lease.node nodes.now || has_next lease.number) ≡ true }
    ensures { result ≡ lease_among nodes.now lease }
{
    if nodes.contains(lease.node) {
        return lease;
    }
    Lease {
        node: first_of(nodes),
        number: lease.number + 1,
    }
}

/// Other nodes, with the lease among them, and the next generation.
fn go_to(info: &mut Info, nodes: Nodes)
    requires generation { has_next info.old.desc.generation ≡ true }
    requires number { (is_replica info.old.lease.node nodes || has_next info.old.lease.number) ≡ true }
    ensures { info.new ≡ record { desc = record (info.old.desc) { nodes = nodes; generation = info.old.desc.generation + 1 }; lease = lease_among nodes info.old.lease } }
{
    let generation = info.desc.generation + 1;
    info.lease = lease_among(&nodes, info.lease);
    info.desc.nodes = nodes;
    info.desc.generation = generation;
}

impl RangeState {
    ghost use Rattle.ds_rule.specs.World.{Range};

    /// Gives the lease to the node, under the next number. Where the node has no replica or holds the
    /// lease already, and where the number is the greatest, nothing changes.
    pub fn give_lease(&mut self, node: u8)
        ensures { self.new ≡ (if can_lease node self.old then with_lease node self.old else self.old) }
    {
        if can_take(&self.info, node) {
            take_lease(&mut self.info, node);
        }
    }

    /// Whether a move to these nodes would have an effect: they are others, or the same in another
    /// order, and the generation, and the lease's number where its holder isn't among them, can rise.
    pub fn can_move(&self, nodes: &Nodes) -> bool
        ensures { result ≡ can_move nodes.now self.now }
    {
        let info = &self.info;
        !same_nodes(nodes, &info.desc.nodes)
            && has_next(info.desc.generation)
            && (nodes.contains(info.lease.node) || has_next(info.lease.number))
    }

    /// Moves the range to these nodes. The lease stays with its holder where that is among them; else
    /// the first of them has it.
    pub fn move_to(&mut self, nodes: Nodes)
        requires { can_move nodes self.old ≡ true }
        ensures { self.new ≡ with_nodes nodes self.old }
    {
        go_to(&mut self.info, nodes);
    }
}

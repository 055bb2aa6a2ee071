//! Orders, and in which order they give their nodes.
use ds_base::{Key, Span};
use ds_desc::{Info, Lease, Nodes, RangeDesc};
use ds_lease::Order;
use std::alloc::Global;
use std::test::Fail;

/// A range on the nodes 1, 2 and 3, with the lease at this node.
fn with_lease_at(alloc: Global, node: u8) -> Result<Info, Fail> {
    let end = Key::bound(alloc)?;
    let span = Span::new(Key::least(alloc), end).map_err(|_| "a span")?;
    let desc = RangeDesc {
        id: 1,
        span,
        nodes: Nodes::of(alloc, &[1, 2, 3]),
        generation: 1,
    };
    Ok(Info {
        desc,
        lease: Lease { node, number: 1 },
    })
}

/// Whether these are the nodes that the order gives, and no others.
fn gives(order: &mut Order, nodes: [Option<u8>; 4]) -> bool {
    let mut same = true;
    for node in nodes {
        same = order.next() == node && same;
    }
    same
}

#[test]
fn the_leaseholder_comes_first(rt: HostRuntime) -> Result<(), Fail> {
    let mut order = Order::of(&with_lease_at(rt.alloc(), 3)?);
    assert!(rt; gives(&mut order, [Some(3), Some(1), Some(2), None]));
    Ok(())
}

#[test]
fn a_lease_of_no_replica_changes_nothing(rt: HostRuntime) -> Result<(), Fail> {
    let mut order = Order::of(&with_lease_at(rt.alloc(), 4)?);
    assert!(rt; !order.front(4));
    assert!(rt; gives(&mut order, [Some(1), Some(2), Some(3), None]));
    Ok(())
}

#[test]
fn a_node_put_in_front_moves(rt: HostRuntime) -> Result<(), Fail> {
    let mut order = Order::of(&with_lease_at(rt.alloc(), 3)?);
    assert!(rt; order.front(2));
    assert!(rt; gives(&mut order, [Some(2), Some(3), Some(1), None]));
    assert!(rt; order.front(3));
    assert!(rt; gives(&mut order, [Some(3), None, None, None]));
    Ok(())
}

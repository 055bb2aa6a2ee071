//! Makes a piece of a rest ready to be sent.
ghost use Rattle.std.specs.Prelude.{◌≡◌, ◌<◌, length, IfOk, OnOk, OnErr};
ghost use Rattle.ds_cut.specs.Pieces.{ContainsSeek, rest_part};
ghost use Rattle.ds_flight.specs.Works.{FirstNode, TakenOff};

use crate::span::span_known;
use crate::work::Flying;
use ds_cache::Token;
use ds_cut::Cutter;
use ds_desc::Info;
use ds_kind::Head;
use ds_lease::Order;
use std::alloc::{AllocError, Global};

/// The next node of the order, and those after it.
fn first_node(info: &Info) -> (Order, u8)
    ensures { FirstNode info.now result.0 result.1 }
{
    info.desc.nodes.len();
    let mut order = Order::of(info);
    match order.next() {
        Some(node) => (order, node),
        None => unreachable!(),
    }
}

/// Cuts off the rest what lies in the range of its first key, to be sent to the leaseholder first,
/// then to the other replicas in order. Want of memory leaves the rest as it was.
pub(crate) fn take_off(
    alloc: Global,
    rest: &mut Cutter,
    head: &Head,
    info: &Info,
    token: Token,
) -> Result<Flying, AllocError>
    requires seek { ContainsSeek info.now.desc rest.old }
    requires some { 0 < length rest.old.items }
    ensures flying { IfOk result (λ r. TakenOff head.now info.now rest.old token r) }
    ensures rest { OnOk result (rest.new ≡ rest_part info.now.desc rest.old) }
    ensures error { OnErr result (rest.new ≡ rest.old) }
{
    rest.known();
    span_known(&info.desc.span);
    match rest.next(alloc, head, &info.desc)? {
        Some(piece) => {
            let (order, node) = first_node(info);
            Ok(Flying {
                piece,
                order,
                node,
                token,
            })
        }
        None => unreachable!(),
    }
}

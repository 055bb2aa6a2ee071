//! What comes after refusals and losses.
use ds_base::{Key, Span};
use ds_desc::{Info, Infos, Lease, Nodes, RangeDesc, Refusal};
use ds_kind::{Left, Replies};
use ds_lease::Order;
use ds_retry::{Attempts, PartOutcome, Rule, Step, after, after_loss};
use std::alloc::Global;
use std::test::Fail;

/// The order of a range on the nodes 1, 2 and 3, with the lease at 1, which was taken.
fn after_node_1(alloc: Global) -> Result<Order, Fail> {
    let end = Key::bound(alloc)?;
    let span = Span::new(Key::least(alloc), end).map_err(|_| "a span")?;
    let desc = RangeDesc {
        id: 1,
        span,
        nodes: Nodes::of(alloc, &[1, 2, 3]),
        generation: 1,
    };
    let mut order = Order::of(&Info {
        desc,
        lease: Lease { node: 1, number: 1 },
    });
    order.next();
    Ok(order)
}

fn lease_at(node: u8) -> Refusal {
    Refusal::NotLease {
        lease: Lease { node, number: 2 },
    }
}

/// What comes after the first refusal of a batch with this budget.
fn first_step(alloc: Global, budget: u32, refusal: &Refusal) -> Result<Step, Fail> {
    if budget == 0 {
        return Err(Fail::from("a budget"));
    }
    let mut attempts = Attempts::new(budget);
    let mut order = after_node_1(alloc)?;
    Ok(after(&mut attempts, &mut order, refusal))
}

#[test]
fn steps_after_a_refusal(rt: HostRuntime) -> Result<(), Fail> {
    let alloc = rt.alloc();
    let recut = Refusal::Mismatch {
        infos: Infos::new(alloc),
    };
    assert_eq!(rt;
        first_step(alloc, 9, &Refusal::NotFound)?,
        Step::SameRoute { node: 2 }
    );
    assert_eq!(rt;
        first_step(alloc, 9, &lease_at(3))?,
        Step::SameRoute { node: 3 }
    );
    assert_eq!(rt; first_step(alloc, 9, &lease_at(4))?, Step::Relook);
    assert_eq!(rt; first_step(alloc, 9, &recut)?, Step::Recut);
    assert_eq!(rt;
        first_step(alloc, 1, &recut)?,
        Step::Exhausted {
            refused: 1,
            lost: 0
        }
    );
    Ok(())
}

#[test]
fn a_loss_goes_to_the_same_node(rt: HostRuntime) {
    let mut attempts = Attempts::new(2);
    assert_eq!(rt;
        after_loss(&mut attempts, 2, true),
        Step::SameRoute { node: 2 }
    );
    assert_eq!(rt; attempts.at_risk, 1);
    assert_eq!(rt;
        after_loss(&mut attempts, 2, false),
        Step::Exhausted {
            refused: 0,
            lost: 2
        }
    );
    assert_eq!(rt; attempts.at_risk, 1);
}

#[test]
fn a_lost_lookup_counts_without_risk(rt: HostRuntime) {
    let mut attempts = Attempts::new(2);
    assert!(rt; !attempts.lose(false));
    assert!(rt; attempts.lose(false));
    assert_eq!(rt; attempts.lost, 2);
    assert_eq!(rt; attempts.at_risk, 0);
}

fn left_of(outcome: &PartOutcome) -> Option<u32> {
    match outcome {
        PartOutcome::Done { left, .. } => left.rest(),
        _ => None,
    }
}

#[test]
fn a_part_may_be_done(rt: HostRuntime) {
    let rule = Rule { whole: None };
    let done = PartOutcome::Done {
        replies: Replies::new(rt.alloc()),
        left: Left::new(Some(3)),
    };
    assert!(rt; rule.whole.is_none());
    assert_eq!(rt; left_of(&done), Some(3));
}

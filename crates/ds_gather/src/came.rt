//! What came, with its number in the order of arrival, and how it is put in key order.
ghost use Rattle.std.specs.Prelude.{◌≡◌};
ghost use Rattle.ds_base.specs.Order.{key_cmp};
ghost use Rattle.ds_kind.specs.Bodies.{in_order};
ghost use Rattle.ds_gather.specs.Gathered.{start_of};
ghost use Rattle.ds_gather.specs.Numbered.{came_in, rank, AreNumbered};

use crate::arrival::Arrival;
use std::cmp::Ordering;

/// What came, and how many answers came before it.
#[derive(Drop)]
pub(crate) struct Came {
    pub(crate) number: usize,
    pub(crate) arrival: Arrival,
}

// By where they start; what starts at one key, in the order of arrival.
#[tactic(auto, using(crate::proofs::Ranking::rank_then))]
fn compare(one: &Came, other: &Came) -> Ordering
    ensures { result ≡ key_cmp (rank one.now) (rank other.now) }
{
    let numbers = one.number.cmp(&other.number);
    one.arrival.start.cmp(&other.arrival.start).then(numbers)
}

// Puts what came in key order.
fn sort(got: &mut [Came])
    requires { AreNumbered got.old }
    ensures { came_in got.new ≡ in_order start_of (came_in got.old) }
{
    got.sort_unstable_by(|one, other| compare(one, other));
}

/// What came in key order, found without memory in the time of a sort, whatever the order of arrival.
pub(crate) fn in_key_order(got: Vec<Came>) -> Vec<Came>
    requires { AreNumbered got.items }
    ensures { came_in result.items ≡ in_order start_of (came_in got.items) }
{
    let mut sorted = got;
    sort(sorted.as_mut_slice());
    sorted
}

//! Makes the replies of a part out of what its pieces were answered, in whatever order they come.
#![tactic(auto)]

mod arrival;
mod came;
mod gather;
mod laws;
mod place;
mod places;
mod room;

pub use arrival::{Arrival, Wanted};
pub use gather::Gather;
pub use laws::{bodies_joined, keys_in_order, order_free, rows_in_order};

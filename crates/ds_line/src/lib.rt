//! What stands on a line of a script: requests, and what happens by itself or beside a batch.
//!
//! Each call reads JSON that was parsed. `Bad(Shape)` is answered exactly where it has another form
//! than is read here, and `Ok(None)` where something in it is more than its type can hold.
#![tactic(auto)]

mod event;
mod happening;
mod request;

pub use event::EventReader;
pub use happening::happening_of;
pub use request::RequestReader;

//! Keys, spans, values and lists: what every other crate speaks of.
#![tactic(auto)]

pub mod copies;
pub mod key;
pub mod list;
pub mod span;
pub mod value;

pub use copies::Copies;
pub use key::{Key, KeyFault};
pub use list::ListOf;
pub use span::{BadSpan, Span};
pub use value::{Dir, Seq, Stamp, Text, TxnNo, Value};

/// Keys, in an order of their own.
pub type Keys = ListOf<Key>;

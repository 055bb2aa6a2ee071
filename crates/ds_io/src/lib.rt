//! Where bytes come from and where they go.
//!
//! A [`Source`] gives bytes piece by piece and a [`Sink`] takes them. Each keeps a count of its
//! failed calls, and a call answers [`Failed`] only where that count rose: code that is generic
//! over a source or a sink cannot answer a failure that did not happen.
//!
//! [`MemSource`], [`SureSource`] and [`MemSink`] stand in memory, and their contracts say which
//! calls fail and which bytes move. [`ReadSource`] and [`WriteSink`] stand over std's readers and
//! writers. [`read_all`] reads a source to its end, and [`put_all`] puts a whole text on a sink.
#![tactic(auto)]

mod edge;
mod memory_sink;
mod memory_source;
mod stream;
mod whole;

pub use edge::{ReadSource, WriteSink};
pub use memory_sink::MemSink;
pub use memory_source::{MemSource, SureSource};
pub use stream::{Failed, Sink, Source};
pub use whole::{LIMIT, ReadError, put_all, read_all};

//! The outside, as traits: files that are read, bytes that are written, and a gate that workers pass.
//!
//! It stands on vf_base and thiserror. The layers above are generic over `Shelf`, `Sink` and `Gate`, and rest
//! on the clauses of `fetch`, `write` and `put_all` alone, each over the state that a shelf or a sink shows
//! (`seen`): a refusal that is put down to the outside comes only where that object's count of faults rose in
//! the call, and what was read or written before it is a prefix of the whole. The fakes `MemShelf`, `SureShelf`,
//! `MemSink` and `SureSink` keep them and say exactly when they fail; the real files and outputs stand in
//! vf_adapters.
#![tactic(auto)]

mod files;
mod gate;
mod mem_shelf;
mod mem_sink;
mod shelf;
mod sink;
mod sure_shelf;
mod sure_sink;

pub use gate::{Gate, OpenGate};
pub use mem_shelf::MemShelf;
pub use mem_sink::MemSink;
pub use shelf::{Shelf, ShelfRefusal};
pub use sink::{Sink, SinkFailed, put_all};
pub use sure_shelf::SureShelf;
pub use sure_sink::SureSink;

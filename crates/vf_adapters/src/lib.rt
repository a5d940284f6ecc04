//! The real outside: files, standard output and standard error as a shelf and sinks.
//!
//! It stands on vf_base and vf_ports, and is generic over the files, the reader and the writer, so all of it
//! runs over memory too. The program rests on this: `read_within` appends exactly what its reader has left, or
//! says that this is too much; `FileShelf` and `OutSink` meet the traits `Shelf` and `Sink`, count a fault at
//! each failure of the system, and at no other time; an `OutSink` tells the bytes that its writer tells.
#![tactic(auto)]

mod file_shelf;
mod out_sink;
mod read;

pub use file_shelf::FileShelf;
pub use out_sink::{OutSink, Telling};
pub use read::read_within;

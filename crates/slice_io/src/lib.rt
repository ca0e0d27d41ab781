//! Files that are read and a place that is written to, as devices that may fail.
//!
//! A device tells contracts what it holds, where it can, and counts its faults. Code above is
//! generic over [`Shelf`] and [`Sink`] and is proved once, for files in memory as for real ones.
#![tactic(auto)]

pub mod growing;
pub mod laws;
pub mod lines;
pub mod memory;
pub mod real;
pub mod shelf;
pub mod sink;

pub use growing::{GrowingSink, OneFile};
pub use laws::lines_follow_one_another;
pub use lines::{LineFault, LineReader};
pub use memory::{MemoryShelf, MemorySink, NamedFile};
pub use real::{FileShelf, StdSink};
pub use shelf::{Failed, FetchFault, Shelf, fetch};
pub use sink::{Sink, WriteFault, put_all};

#[cfg(test)]
mod tests;

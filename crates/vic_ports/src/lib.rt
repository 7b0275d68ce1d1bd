//! The outside, as traits with a written meaning: where bytes come from and where they go.
//!
//! A source tells what is left, a sink what it holds, where they can; each has a count of faults that never falls: it rises in
//! the calls that answer `Failed`, and in no others. `specs/Causes.antt` says what a read and a write do, and the contracts
//! of the traits' methods carry it. There are forms in memory, which tell their bytes, and forms over standard input and
//! output and over TCP, which tell none; `specs/Answers.antt` says what the system's answers are told as.
#![tactic(auto)]

mod answers;
pub mod doors;
pub mod link;
pub mod memory;
mod memory_calls;
pub mod memory_doors;
pub mod memory_link;
pub mod never;
pub mod ports;
pub mod reading;
pub mod sending;
pub mod system;
pub mod tcp;
pub mod writing;

pub use answers::TRIES;
pub use doors::{Came, Doors};
pub use link::Link;
pub use memory::{Calls, MemorySink, MemorySource};
pub use memory_doors::{Lines, MemoryDoors};
pub use memory_link::MemoryLink;
pub use never::{NeverFails, Planned};
pub use ports::{Got, Put, Sink, Source};
pub use reading::{InputRead, read_input};
pub use sending::send;
pub use system::{ReadSource, StdSink, StdSource, WriteSink};
pub use tcp::{TcpDoors, TcpLine};
pub use writing::{Written, write_output};

#[cfg(test)]
mod tests;

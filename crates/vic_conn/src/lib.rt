//! Frames over a stream of bytes that comes in pieces.
//!
//! A frame is four bytes of length, the highest first, and a payload of that length, 1 to 16,777,216 bytes. How a stream goes
//! on is `front_of` of `specs/Frames.antt`; the contract of `FrameReader::take_frame` says that it takes just that.
#![tactic(auto)]

pub mod fault;
pub mod laws;
pub mod reader;
pub mod writer;

pub use fault::FrameFault;
pub use laws::{any_pieces, fronts_are, one_by_one, reads_back, stays_decided};
pub use reader::FrameReader;
pub use writer::frame;

#[cfg(test)]
mod tests;

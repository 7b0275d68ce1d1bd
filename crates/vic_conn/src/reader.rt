//! A reader that is fed pieces of a stream, and gives its frames one after the other.

ghost use Rattle.std.specs.Prelude.{◌≡◌, ◌≢◌, ◌+◌, ◌<◌, ◌≤◌, ◌↔◌, ◌⊎◌, ℕ, List, [], ◌++◌, drop, length, IsTrue, IfOk, IfErr, OnOk, OnErr, MatchOption};
ghost use Rattle.vic_conn.specs.Frames.{Waits, Whole, Broken, IsBroken, front_of};

use crate::fault::FrameFault;
use std::alloc::Global;
use std::marker::Model;
use vic_dict::limits::LONGEST_FRAME;
use vic_dict::{Bytes, NoMemory};
use vic_fields::Cut;

/// The bytes of a frame in front of its payload.
const LENGTH_BYTES: usize = 4;

/// The bytes that were fed and not yet taken. Contracts see these.
///
/// Taken bytes are dropped by a shift only where they are at least half of the buffer, so that all calls together cost the
/// bytes fed and taken, however small the pieces are.
#[derive(Debug, Drop)]
pub struct FrameReader {
    /// What was fed, less what a shift has dropped.
    bytes: Vec<u8>,
    /// How many of them were taken.
    taken: usize,
}

impl Model for FrameReader {
    ghost use Rattle.std.specs.Prelude.{ℕ, ◌≤◌, List, drop, length};

    ghost Value = { List ℕ };

    ghost view = { λ r. drop r.taken r.bytes.items };

    ghost invariant = { λ r. r.taken ≤ length r.bytes.items };
}

impl FrameReader {
    /// A reader that was fed nothing yet; it takes no memory.
    pub fn new(alloc: Global) -> FrameReader
        ensures { result ≡ [] }
    {
        FrameReader {
            bytes: Vec::new(alloc),
            taken: 0,
        }
    }

    /// Puts the next piece of the stream behind what is left. All calls together cost the bytes fed.
    pub fn feed(&mut self, piece: &[u8]) -> Result<(), NoMemory>
        ensures ok { OnOk result (self.new ≡ self.old ++ piece.now) }
        ensures err { OnErr result (self.new ≡ self.old) }
    {
        if self.taken >= self.bytes.len() - self.taken {
            move_to_front(&mut self.bytes, self.taken);
            self.taken = 0;
        }
        self.bytes.extend_from_slice(piece)?;
        Ok(())
    }

    /// The payload of the next frame, or none where it isn't whole yet.
    ///
    /// It costs the payload that it gives. A length that no frame has is answered at each later call too, whatever is fed.
    pub fn take_frame(&mut self, alloc: Global) -> Result<Option<Bytes>, FrameFault>
        ensures found { (p : List ℕ) → result ≡ Ok (Some p) → front_of self.old ≡ Whole p self.new }
        ensures whole { (p behind : List ℕ) → front_of self.old ≡ Whole p behind → (result ≡ Ok (Some p)) ⊎ (result ≡ Err FrameFault.NoMemory) }
        ensures none { (result ≡ Ok None) ↔ (front_of self.old ≡ Waits) }
        ensures none_stays { result ≡ Ok None → self.new ≡ self.old }
        ensures zero { (result ≡ Err FrameFault.Zero) ↔ (front_of self.old ≡ Broken 0) }
        ensures too_long { (n : ℕ) → (result ≡ Err (FrameFault.TooLong n)) ↔ ((0 < n) × (front_of self.old ≡ Broken n)) }
        ensures err { OnErr result (self.new ≡ self.old) }
    {
        let Some(payload) = next_payload(&self.bytes[self.taken..])? else {
            return Ok(None);
        };
        let size = LENGTH_BYTES + payload.len();
        let made = Bytes::of(alloc, payload)?;
        self.taken += size;
        Ok(Some(made))
    }

    /// Whether bytes are left that were not taken: where `take_frame` gave none, less than a whole frame.
    pub fn mid(&self) -> bool
        ensures { IsTrue result ↔ (self.now ≢ []) }
    {
        self.taken < self.bytes.len()
    }
}

/// The payload of the frame in front, or none where it isn't whole yet.
fn next_payload(bytes: &[u8]) -> Result<Option<&[u8]>, FrameFault>
    ensures ok { IfOk result (λ o. MatchOption o (front_of bytes.now ≡ Waits) (λ p. front_of bytes.now ≡ Whole p.now (drop (4 + length p.now) bytes.now))) }
    ensures within { IfOk result (λ o. MatchOption o (Unit {0}) (λ p. 4 + length p.now ≤ length bytes.now)) }
    ensures err { IfErr result (λ e. IsBroken e (front_of bytes.now)) }
{
    let mut cut = Cut::new(bytes);
    let Ok(size) = cut.take_u32() else {
        return Ok(None);
    };
    if size == 0 {
        return Err(FrameFault::Zero);
    }
    if LONGEST_FRAME < size {
        return Err(FrameFault::TooLong(size));
    }
    match cut.take_bytes(size as usize) {
        Ok(payload) => Ok(Some(payload)),
        Err(_) => Ok(None),
    }
}

/// Moves the bytes from a place on to the front, and drops those before. It costs those that stood there.
fn move_to_front(bytes: &mut Vec<u8>, place: usize)
    requires { place ≤ length bytes.old.items }
    ensures { bytes.new.items ≡ drop place bytes.old.items }
{
    let left = bytes.len() - place;
    bytes.copy_within(place.., 0);
    bytes.truncate(left);
}

//! Bytes that are read field by field.

ghost use Rattle.std.specs.Prelude.{◌≡◌, length, OnErr, IsErrOf};
ghost use Rattle.std.specs.Int.{w16, w32};
ghost use Rattle.vic_wire.specs.Reading.{byte_at, number_at, digest_at, bytes_at, op_at, entry_at};
ghost use Rattle.vic_fields.specs.Giving.{Gives};

use crate::reading::{bytes_of, digest_of, entry_of, op_of, u8_of, u16_of, u32_of};
use std::alloc::Global;
use std::marker::Model;
use thiserror::Error;
use vic_dict::{Entry, NoMemory as OutOfMemory, Op};
use vic_wire::Digest32;

/// Why a field wasn't taken.
#[derive(Clone, Copy, Debug, PartialEq, Eq, Error)]
pub enum CutFault {
    /// The field passes the end.
    #[error("the bytes end inside a field")]
    Short,
    /// A number of the field isn't allowed at its place.
    #[error("a field has a value that isn't allowed")]
    Value,
    /// Memory ran out; the bytes may be in order.
    #[error("no memory")]
    NoMemory,
}

impl From<OutOfMemory> for CutFault {
    ghost use Rattle.std.specs.Prelude.{◌≡◌};
    ghost use Rattle.vic_fields.specs.declared.cut.CutFault.TheVariants.{NoMemory};

    ghost from_gives = { λ _ e. e ≡ NoMemory };

    fn from(_cause: OutOfMemory) -> CutFault {
        CutFault::NoMemory
    }
}

/// Bytes from whose front fields are taken. Contracts see the bytes not yet taken.
///
/// A call takes one field and costs what the field has; after a fault the cut is as before.
#[derive(Drop)]
pub struct Cut<'a> {
    bytes: &'a [u8],
}

impl<'a> Model for Cut<'a> {
    ghost use Rattle.std.specs.Prelude.{ℕ, List};

    ghost Value = { List ℕ };

    ghost view = { λ c. c.bytes.now };
}

impl<'a> Cut<'a> {
    /// Begins at the front of the bytes. It takes no memory.
    pub fn new(bytes: &'a [u8]) -> Cut<'a>
        ensures { result ≡ bytes.now }
    {
        Cut { bytes }
    }

    /// One byte.
    pub fn take_u8(&mut self) -> Result<u8, CutFault>
        ensures gives { Gives (λ n. (n, self.new)) result (byte_at self.old) }
        ensures err { OnErr result (self.new ≡ self.old) }
        ensures no_memory { IsErrOf result CutFault.NoMemory → ⊥ }
    {
        let (value, rest) = u8_of(self.bytes)?;
        self.bytes = rest;
        Ok(value)
    }

    /// Two bytes, the higher first.
    pub fn take_u16(&mut self) -> Result<u16, CutFault>
        ensures gives { Gives (λ n. (n, self.new)) result (number_at w16 self.old) }
        ensures err { OnErr result (self.new ≡ self.old) }
        ensures no_memory { IsErrOf result CutFault.NoMemory → ⊥ }
    {
        let (value, rest) = u16_of(self.bytes)?;
        self.bytes = rest;
        Ok(value)
    }

    /// Four bytes, the highest first.
    pub fn take_u32(&mut self) -> Result<u32, CutFault>
        ensures gives { Gives (λ n. (n, self.new)) result (number_at w32 self.old) }
        ensures err { OnErr result (self.new ≡ self.old) }
        ensures no_memory { IsErrOf result CutFault.NoMemory → ⊥ }
    {
        let (value, rest) = u32_of(self.bytes)?;
        self.bytes = rest;
        Ok(value)
    }

    /// A digest or a tag: 32 bytes.
    pub fn take_digest(&mut self) -> Result<Digest32, CutFault>
        ensures gives { Gives (λ d. (d, self.new)) result (digest_at self.old) }
        ensures err { OnErr result (self.new ≡ self.old) }
        ensures no_memory { IsErrOf result CutFault.NoMemory → ⊥ }
    {
        let (value, rest) = digest_of(self.bytes)?;
        self.bytes = rest;
        Ok(value)
    }

    /// So many bytes.
    pub fn take_bytes(&mut self, n: usize) -> Result<&'a [u8], CutFault>
        ensures gives { Gives (λ b. (b.now, self.new)) result (bytes_at n self.old) }
        ensures err { OnErr result (self.new ≡ self.old) }
        ensures no_memory { IsErrOf result CutFault.NoMemory → ⊥ }
    {
        let (value, rest) = bytes_of(n, self.bytes)?;
        self.bytes = rest;
        Ok(value)
    }

    /// A kind byte from 1 to 4 and the texts of the operation, each behind a length byte that is within the limits.
    pub fn take_op(&mut self, alloc: Global) -> Result<Op, CutFault>
        ensures gives { Gives (λ o. (o, self.new)) result (op_at self.old) }
        ensures err { OnErr result (self.new ≡ self.old) }
    {
        let (op, rest) = op_of(alloc, self.bytes)?;
        self.bytes = rest;
        Ok(op)
    }

    /// A client from 1 to 64 in one byte, a number above 0 in four, and an operation.
    pub fn take_entry(&mut self, alloc: Global) -> Result<Entry, CutFault>
        ensures gives { Gives (λ e. (e, self.new)) result (entry_at self.old) }
        ensures err { OnErr result (self.new ≡ self.old) }
    {
        let (entry, rest) = entry_of(alloc, self.bytes)?;
        self.bytes = rest;
        Ok(entry)
    }

    /// How many bytes aren't taken yet.
    pub fn left(&self) -> usize
        ensures { result ≡ length self.now }
    {
        self.bytes.len()
    }

    /// The bytes not yet taken.
    pub fn rest(self) -> &'a [u8]
        ensures { result.now ≡ self.entry }
    {
        self.bytes
    }
}

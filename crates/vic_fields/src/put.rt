//! Each field put at the end of a text: all of it, or where memory runs out nothing.

ghost use Rattle.std.specs.Prelude.{◌≡◌, [], ◌∷◌, ◌++◌, OnOk, OnErr};
ghost use Rattle.std.specs.Int.{w16, w32, to_be_bytes};
ghost use Rattle.vic_dict.specs.Dictionary.{Fits};
ghost use Rattle.vic_wire.specs.Texts.{op_text, entry_text};

use crate::draft::Draft;
use vic_dict::{Bytes, Entry, NoMemory, Op};
use vic_wire::Digest32;

/// One byte.
pub fn put_u8(out: &mut Bytes, value: u8) -> Result<(), NoMemory>
    ensures ok { OnOk result (out.new ≡ out.old ++ value ∷ []) }
    ensures err { OnErr result (out.new ≡ out.old) }
{
    out.push(value)
}

/// Two bytes, the higher first.
pub fn put_u16(out: &mut Bytes, value: u16) -> Result<(), NoMemory>
    ensures ok { OnOk result (out.new ≡ out.old ++ to_be_bytes w16 value) }
    ensures err { OnErr result (out.new ≡ out.old) }
{
    out.append(&value.to_be_bytes())
}

/// Four bytes, the highest first.
pub fn put_u32(out: &mut Bytes, value: u32) -> Result<(), NoMemory>
    ensures ok { OnOk result (out.new ≡ out.old ++ to_be_bytes w32 value) }
    ensures err { OnErr result (out.new ≡ out.old) }
{
    out.append(&value.to_be_bytes())
}

/// 32 bytes.
pub fn put_digest(out: &mut Bytes, digest: &Digest32) -> Result<(), NoMemory>
    ensures ok { OnOk result (out.new ≡ out.old ++ digest.now.bytes) }
    ensures err { OnErr result (out.new ≡ out.old) }
{
    out.append(&digest.bytes)
}

/// The bytes, with nothing before them.
pub fn put_bytes(out: &mut Bytes, bytes: &[u8]) -> Result<(), NoMemory>
    ensures ok { OnOk result (out.new ≡ out.old ++ bytes.now) }
    ensures err { OnErr result (out.new ≡ out.old) }
{
    out.append(bytes)
}

/// A kind byte and the texts of the operation, each behind its length in one byte: at most 322 bytes.
pub fn put_op(out: &mut Bytes, op: &Op) -> Result<(), NoMemory>
    requires { Fits op.now }
    ensures ok { OnOk result (out.new ≡ out.old ++ op_text op.now) }
    ensures err { OnErr result (out.new ≡ out.old) }
{
    let mut draft = Draft::new();
    draft.add_op(op);
    out.append(draft.as_slice())
}

/// The client in one byte, the number in four, and the operation: at most 327 bytes.
pub fn put_entry(out: &mut Bytes, entry: &Entry) -> Result<(), NoMemory>
    requires { Fits entry.now.op }
    ensures ok { OnOk result (out.new ≡ out.old ++ entry_text entry.now) }
    ensures err { OnErr result (out.new ≡ out.old) }
{
    let mut draft = Draft::new();
    draft.add(&[entry.client]);
    draft.add(&entry.seq.to_be_bytes());
    draft.add_op(&entry.op);
    out.append(draft.as_slice())
}

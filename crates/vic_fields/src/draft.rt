//! The text of one entry before it joins its place, so that all of it joins or none.

ghost use Rattle.std.specs.Prelude.{◌≡◌, ◌+◌, ◌<◌, ◌≤◌, [], ◌++◌, length};
ghost use Rattle.vic_dict.specs.Dictionary.{Fits};
ghost use Rattle.vic_wire.specs.Texts.{short_text, op_text};

use std::marker::Model;
use vic_dict::Op;

/// The longest text of an entry: client, number, kind, a key with its length and a value with its length.
const MOST: usize = 327;

/// A text of at most 327 bytes, on the stack. Contracts see the text.
#[derive(Drop)]
pub(crate) struct Draft {
    /// The text in front; what is behind it means nothing.
    bytes: [u8; MOST],
    /// How many bytes the text has.
    len: usize,
}

impl Model for Draft {
    ghost use Rattle.std.specs.Prelude.{ℕ, ◌≤◌, List, take};

    ghost Value = { List ℕ };

    ghost view = { λ d. take d.len d.bytes };

    ghost invariant = { λ d. d.len ≤ 327 };
}

impl Draft {
    pub(crate) fn new() -> Draft
        ensures { result ≡ [] }
    {
        Draft {
            bytes: [0; MOST],
            len: 0,
        }
    }

    pub(crate) fn as_slice(&self) -> &[u8]
        ensures { result.now ≡ self.now }
    {
        &self.bytes[..self.len]
    }

    /// Puts bytes last.
    pub(crate) fn add(&mut self, bytes: &[u8])
        requires { length self.old + length bytes.now ≤ 327 }
        ensures { self.new ≡ self.old ++ bytes.now }
    {
        let end = self.len + bytes.len();
        self.bytes[self.len..end].copy_from_slice(bytes);
        self.len = end;
    }

    /// Puts a text last, behind its length.
    pub(crate) fn add_short(&mut self, text: &[u8])
        requires short { length text.now ≤ 255 }
        requires room { length self.old + 1 + length text.now ≤ 327 }
        ensures { self.new ≡ self.old ++ short_text text.now }
    {
        self.add(&[text.len() as u8]);
        self.add(text);
    }

    /// Puts an operation last.
    pub(crate) fn add_op(&mut self, op: &Op)
        requires fits { Fits op.now }
        requires room { length self.old + 322 ≤ 327 }
        ensures { self.new ≡ self.old ++ op_text op.now }
    {
        match op {
            Op::Put(key, value) => {
                self.add(&[1]);
                self.add_short(key.as_slice());
                self.add_short(value.as_slice());
            }
            Op::Get(key) => {
                self.add(&[2]);
                self.add_short(key.as_slice());
            }
            Op::Del(key) => {
                self.add(&[3]);
                self.add_short(key.as_slice());
            }
            Op::List(prefix) => {
                self.add(&[4]);
                self.add_short(prefix.as_slice());
            }
        }
    }
}

//! Whether two operations or entries are the same, byte by byte.

ghost use Rattle.std.specs.Prelude.{◌≡◌};
ghost use Rattle.vic_rules.specs.Client.{same_op as same_op_test, same_entry as same_entry_test};

use vic_dict::{Entry, Op};

/// Whether two operations are the same. It costs no more than the shorter one's texts.
pub fn same_op(a: &Op, b: &Op) -> bool
    ensures { result ≡ same_op_test a.now b.now }
{
    a == b
}

/// Whether two entries are the same: the client, its number and the operation.
pub fn same_entry(a: &Entry, b: &Entry) -> bool
    ensures { result ≡ same_entry_test a.now b.now }
{
    a == b
}

//! Calls that are told to fail.

ghost use Rattle.std.specs.Prelude.{◌↔◌, IsTrue, Contains};

use node_tree::List;

/// Whether a call of this number is to fail.
pub fn is_listed(failing: &List<u32>, number: u64) -> bool
    ensures { IsTrue result ↔ Contains failing.now number }
{
    for listed in failing.as_slice() {
        if u64::from(*listed) == number {
            return true;
        }
    }
    false
}

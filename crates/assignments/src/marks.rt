//! Marks of operators.

ghost use Rattle.std.specs.Prelude.{◌≡◌};
ghost use Rattle.std.specs.Str.{bytes_eq};
ghost use Rattle.assignments.specs.Assignments.{steps as is_step};

use node_tree::Text;

/// Whether the text is that mark.
pub fn is_mark(text: &Text, mark: &[u8]) -> bool
    ensures { result ≡ bytes_eq text.now mark.now }
{
    text.as_str().as_bytes() == mark
}

/// Whether it is `++` or `--`.
pub fn steps(text: &Text) -> bool
    ensures { result ≡ is_step text.now }
{
    if is_mark(text, b"++") {
        return true;
    }
    is_mark(text, b"--")
}

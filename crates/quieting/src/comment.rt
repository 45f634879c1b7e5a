//! What stands in a comment.

ghost use Rattle.std.specs.Prelude.{◌≡◌, ◌≤◌, ℕ, List as list, length};
ghost use Rattle.std.specs.Option.{option_map};
ghost use Rattle.std.specs.List.{prefix_len};
ghost use Rattle.std.specs.Borrow.{Bor};
ghost use Rattle.quieting.specs.Comments as spec;

use crate::words::byte_at;

// Whether it is a comment from `/*` to `*/`.
fn is_block(comment: &[u8]) -> bool
    ensures { result ≡ spec.is_block comment.now }
{
    byte_at(comment, 0) == b'/'
        && byte_at(comment, 1) == b'*'
        && comment.len() >= 4
        && comment[comment.len() - 2] == b'*'
}

/// What follows the `#` or `//` of a comment, or stands between its `/*` and its `*/`; nothing of what is no comment.
pub fn content_of(comment: &str) -> &str
    ensures { result.now ≡ spec.content_of comment.now }
{
    let bytes = comment.as_bytes();
    if byte_at(bytes, 0) == b'#' {
        return &comment[1..];
    }
    if byte_at(bytes, 0) == b'/' && byte_at(bytes, 1) == b'/' {
        return &comment[2..];
    }
    if is_block(bytes) {
        return &comment[2..comment.len() - 2];
    }
    ""
}

// How many spaces and tabs the text begins with.
fn blank_len(text: &[u8]) -> usize
    ensures len { result ≡ prefix_len spec.is_blank text.now }
    ensures within { result ≤ length text.now }
{
    for (i, byte) in text.iter().enumerate() {
        if *byte != b' ' && *byte != b'\t' {
            return i;
        }
    }
    text.len()
}

/// What follows the word that quiets, where what stands in a comment begins with it, spaces and tabs aside.
pub fn past_word(content: &str) -> Option<&str>
    ensures { option_map (λ (t : Bor (list ℕ)). t.now) result ≡ spec.past_word content.now }
{
    let text = &content[blank_len(content.as_bytes())..];
    text.strip_prefix("nosemgrep")
}

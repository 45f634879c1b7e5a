//! Words in a text, and the gaps between them.

ghost use Rattle.std.specs.Prelude.{◌≡◌, ◌≤◌, length, slice_index};
ghost use Rattle.quieting.specs.Words as spec;

/// The byte at a place, 0 past the end.
pub fn byte_at(text: &[u8], at: usize) -> u8
    ensures { result ≡ slice_index text.now at }
{
    if at < text.len() { text[at] } else { 0 }
}

/// Whether the text begins with a space, a tab or a line end.
pub fn begins_gap(text: &[u8]) -> bool
    ensures { result ≡ spec.begins_gap text.now }
{
    let first = byte_at(text, 0);
    first == b' '
        || first == b'\t'
        || first == b'\n'
        || (first == b'\r' && byte_at(text, 1) == b'\n')
}

// How many bytes of gaps the text begins with.
fn gap_len(text: &[u8]) -> usize
    ensures len { result ≡ spec.gap_len text.now }
    ensures within { result ≤ length text.now }
{
    for at in 0..text.len() {
        if !begins_gap(&text[at..]) {
            return at;
        }
    }
    text.len()
}

// How many bytes stand before the first gap.
fn word_len(text: &[u8]) -> usize
    ensures len { result ≡ spec.word_len text.now }
    ensures within { result ≤ length text.now }
{
    for at in 0..text.len() {
        if begins_gap(&text[at..]) {
            return at;
        }
    }
    text.len()
}

/// The first of the words that stand between gaps, or nothing where there is none.
pub fn first_word(text: &str) -> &str
    ensures { result.now ≡ spec.first_word text.now }
{
    let rest = &text[gap_len(text.as_bytes())..];
    &rest[..word_len(rest.as_bytes())]
}

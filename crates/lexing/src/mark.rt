//! The byte order mark at the start of a text.

ghost use Rattle.std.specs.Prelude.{◌≡◌, ◌+◌, length};
ghost use Rattle.std.specs.Str.{chars};
ghost use Rattle.lexing.specs.Mark.{past_mark, mark_len};

/// A text without the byte order mark at its start, if it has one.
pub fn without_mark(text: &str) -> &str
    ensures chars { chars result.now ≡ past_mark (chars text.now) }
    ensures len { length text.now ≡ length result.now + mark_len (chars text.now) }
{
    let mut rest = text.chars();
    match rest.next() {
        Some('\u{feff}') => rest.as_str(),
        _ => text,
    }
}

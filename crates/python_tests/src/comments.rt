//! Texts and their comments: each as its span.

use node_tree::LexFault;
use py_lex::comments;
use shown::{parted, same};
use std::alloc::Global;
use std::fmt::Write;
use std::test::Fail;

// The comments of a text, or `none`.
fn read(alloc: Global, text: &str) -> Result<String, LexFault> {
    let mut out = String::new(alloc);
    if text.len() > 1_000_000 {
        return Ok(out);
    }
    match comments(alloc, text) {
        Ok(all) => {
            for (at, span) in all.as_slice().iter().enumerate() {
                if at > 0 {
                    out.push(' ')?;
                }
                write!(out, "{}..{}", span.from, span.to)?;
            }
        }
        Err(LexFault::NoTokens) => out.push_str("none")?,
        Err(LexFault::Memory) => return Err(LexFault::Memory),
    }
    Ok(out)
}

#[test]
fn reads_comments(rt: HostRuntime) -> Result<(), Fail> {
    for row in &[
        // Behind a token, on lines of their own, and on a last line without a line end.
        "a  # b\nc\n ⇒ 3..6",
        "# a\n#b\nc ⇒ 0..3 4..6",
        "a\n# b ⇒ 2..5",
        "a\n ⇒ ",
        // Within brackets; a backslash at a comment's end joins no lines.
        "f(  # a\n  b)  # c\n ⇒ 4..7 14..17",
        "a # b\\\nc # d ⇒ 2..6 9..12",
        // A CR LF ends the line; a CR alone doesn't.
        "'# a' # b\r\n ⇒ 6..9",
        "# a\rb ⇒ 0..5",
        // In strings and f-strings there are none; a field with one makes no f-string, but a name and a string.
        "\"\"\"\n# a\n\"\"\" # b ⇒ 12..15",
        "f'# {a}' # b ⇒ 9..12",
        "f'{a:#}' # b ⇒ 9..12",
        "f'{a # b}' # c ⇒ 11..14",
        // Behind a mark, and of more than ASCII.
        "\u{feff}# é\n ⇒ 3..7",
        // Texts without tokens.
        "# a\n'b ⇒ none",
        "# a\r ⇒ none",
        "a:\n  b\n c # d\n ⇒ none",
    ] {
        let (text, wanted) = parted(*row);
        same(text, read(rt.alloc(), text)?.as_str(), wanted)?;
    }
    Ok(())
}

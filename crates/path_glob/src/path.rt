//! Paths.

ghost use Rattle.std.specs.Prelude.{◌≡◌, ◌≤◌, ◌↔◌, IsTrue, All, Any, nat_eq};
ghost use Rattle.std.specs.List.{ends_with};
ghost use Rattle.path_glob.specs.Segments.{segments};
ghost use Rattle.path_glob.specs.Path.{IsPath, IsSegment, IsHidden, has_ending, plain_endings, language};

use crate::segments::first_segment;
use node_tree::Lang;

/// Whether no byte is below 32.
fn is_printed(text: &str) -> bool
    ensures { IsTrue result ↔ All (λ byte. 32 ≤ byte) text.now }
{
    text.bytes().all(|byte| byte >= 32)
}

/// Whether a segment names something.
fn is_segment(segment: &str) -> bool
    ensures { IsTrue result ↔ IsSegment segment.now }
{
    !matches!(segment, "" | "." | "..")
}

/// Whether each segment names something.
fn is_named(path: &str) -> bool
    ensures { IsTrue result ↔ All IsSegment (segments path.now) }
{
    let mut left = Some(path);
    'segments: while let Some((segment, rest)) = first_segment(left) {
        if !is_segment(segment) {
            return false;
        }
        left = rest;
    }
    true
}

/// Whether a text is a path: 1 to 1,024 bytes, none below 32, and segments parted by `/`, none of which is empty, `.` or
/// `..`. So no path begins or ends with a slash, or leads out of the folder that it starts in.
pub fn path_ok(path: &str) -> bool
    ensures { IsTrue result ↔ IsPath path.now }
{
    !path.is_empty() && path.len() <= 1024 && is_printed(path) && is_named(path)
}

/// Whether a segment begins with a dot.
fn is_hidden(segment: &str) -> bool
    ensures { IsTrue result ↔ IsHidden segment.now }
{
    match segment.as_bytes() {
        [] => false,
        [first, ..] => *first == b'.',
    }
}

/// Whether some segment of a path begins with a dot, as that of a hidden file or folder does.
pub fn has_hidden(path: &str) -> bool
    ensures { IsTrue result ↔ Any IsHidden (segments path.now) }
{
    let mut left = Some(path);
    'segments: while let Some((segment, rest)) = first_segment(left) {
        if is_hidden(segment) {
            return true;
        }
        left = rest;
    }
    false
}

/// Whether a path ends so.
fn ends(path: &str, ending: &str) -> bool
    ensures { result ≡ ends_with nat_eq path.now ending.now }
{
    path.ends_with(ending)
}

/// Whether a path has the ending of a text that is only searched.
fn is_plain(path: &str) -> bool
    ensures { result ≡ has_ending plain_endings path.now }
{
    ends(path, ".txt")
        || ends(path, ".md")
        || ends(path, ".yaml")
        || ends(path, ".yml")
        || ends(path, ".toml")
        || ends(path, ".ini")
        || ends(path, ".cfg")
        || ends(path, ".sh")
        || ends(path, ".html")
}

/// The language that the ending of a path names: `.py` and `.pyi` Python, `.c` and `.h` C, `.json` JSON, and nine endings of
/// plain texts [`Lang::Regex`]. The end of the text alone counts, so a file whose whole name is `.c` is C.
pub fn lang_of(path: &str) -> Option<Lang>
    ensures { result ≡ language path.now }
{
    if ends(path, ".py") || ends(path, ".pyi") {
        Some(Lang::Python)
    } else if ends(path, ".c") || ends(path, ".h") {
        Some(Lang::C)
    } else if ends(path, ".json") {
        Some(Lang::Json)
    } else if is_plain(path) {
        Some(Lang::Regex)
    } else {
        None
    }
}

//! The keywords of Python, by their length.

ghost use Rattle.std.specs.Prelude.{◌≡◌};
ghost use Rattle.py_lex.specs.Keywords as spec;

use lexing::is_among;

const OF_TWO: [&[u8]; 5] = [b"as", b"if", b"in", b"is", b"or"];

const OF_THREE: [&[u8]; 6] = [b"and", b"def", b"del", b"for", b"not", b"try"];

const OF_FOUR: [&[u8]; 7] = [
    b"None", b"True", b"elif", b"else", b"from", b"pass", b"with",
];

const OF_FIVE: [&[u8]; 8] = [
    b"False", b"async", b"await", b"break", b"class", b"raise", b"while", b"yield",
];

const OF_SIX: [&[u8]; 6] = [
    b"assert", b"except", b"global", b"import", b"lambda", b"return",
];

const OF_SEVEN: [&[u8]; 1] = [b"finally"];

const OF_EIGHT: [&[u8]; 2] = [b"continue", b"nonlocal"];

/// Whether a name is a keyword.
pub fn is_keyword(text: &str) -> bool
    ensures { result ≡ spec.is_keyword text.now }
{
    let bytes = text.as_bytes();
    let len = bytes.len();
    if len == 2 {
        is_among(&OF_TWO, bytes)
    } else if len == 3 {
        is_among(&OF_THREE, bytes)
    } else if len == 4 {
        is_among(&OF_FOUR, bytes)
    } else if len == 5 {
        is_among(&OF_FIVE, bytes)
    } else if len == 6 {
        is_among(&OF_SIX, bytes)
    } else if len == 7 {
        is_among(&OF_SEVEN, bytes)
    } else if len == 8 {
        is_among(&OF_EIGHT, bytes)
    } else {
        false
    }
}

//! Lists of words, as a language's keywords.

ghost use Rattle.std.specs.Prelude.{◌≡◌, map};
ghost use Rattle.lexing.specs.WordList as spec;

/// Whether a text is one of the words.
pub fn is_among(mut words: &[&[u8]], text: &[u8]) -> bool
    ensures { result ≡ spec.is_among (map (λ word. word.now) words.entry.now) text.now }
{
    while let [word, rest @ ..] = words {
        if *word == text {
            return true;
        }
        words = rest;
    }
    false
}

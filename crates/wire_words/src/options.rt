//! The options of commands.

ghost use Rattle.std.specs.Prelude.{◌≡◌, ◌<◌, ◌↔◌, ℕ, List, length, map, IfSome, IfNone, IsTrue, string_bytes};
ghost use Rattle.lexing.specs.WordList as lists;
ghost use Rattle.wire_words.specs.Options as spec;
ghost use Rattle.wire_words.specs.Options.{Choice, Begins, AreChoices, AreOptions, choice_of, text_within};

use lexing::is_among;

/// A command that has options.
#[derive(Clone, Copy, Drop)]
pub enum Subcommand {
    Scan,
    Fix,
    Session,
}

impl Subcommand {
    /// Whether a word is an option of the command that stands alone.
    fn has_flag(self, word: &str) -> bool
        ensures { result ≡ lists.is_among (spec.flags self) word.now }
    {
        let word = word.as_bytes();
        match self {
            Subcommand::Scan => is_among(&[b"--error", b"--trace"], word),
            Subcommand::Fix => is_among(&[b"--dryrun", b"--trace"], word),
            Subcommand::Session => is_among(&[b"--trace"], word),
        }
    }

    /// Whether a word is an option of the command that has a value.
    fn has_valued(self, word: &str) -> bool
        ensures { result ≡ lists.is_among (spec.valued self) word.now }
    {
        let word = word.as_bytes();
        match self {
            Subcommand::Scan => is_among(&[b"--max", b"--store", b"--config"], word),
            Subcommand::Fix => is_among(&[b"--max", b"--config"], word),
            Subcommand::Session => is_among(&[b"--max"], word),
        }
    }
}

/// The word of the option that the words begin with, its value if it has one, and what follows.
fn first_option<'w>(
    command: Subcommand,
    words: &'w [String],
) -> Option<(&'w str, Option<&'w str>, &'w [String])>
    ensures some { IfSome result (λ p. Begins command (map string_bytes words.now) (choice_of p.0 p.1) (map string_bytes p.2.now)) }
    ensures none { IfNone result ((c : Choice) (rest : List (List ℕ)) → Begins command (map string_bytes words.now) c rest → ⊥) }
    ensures fewer { IfSome result (λ p. length p.2.now < length words.now) }
{
    let (word, rest) = words.split_first()?;
    let word = word.as_str();
    if command.has_flag(word) {
        return Some((word, None, rest));
    }
    let (value, rest) = rest.split_first()?;
    if !command.has_valued(word) {
        return None;
    }
    Some((word, Some(value.as_str()), rest))
}

/// What the option of this word gives, where the words are options: None where it isn't there, else its value if it has one.
pub fn given<'w>(command: Subcommand, words: &'w [String], wanted: &str) -> Option<Option<&'w str>>
    ensures { (cs : List Choice) → AreChoices command (map string_bytes words.now) cs → text_within result ≡ spec.given wanted.now cs }
{
    let mut left = words;
    'options: while let Some((word, value, rest)) = first_option(command, left) {
        if word == wanted {
            return Some(value);
        }
        left = rest;
    }
    None
}

/// Whether the words are options of the command, each at most once.
pub fn are_options(command: Subcommand, words: &[String]) -> bool
    ensures { IsTrue result ↔ AreOptions command (map string_bytes words.now) }
{
    let mut left = words;
    'options: while !left.is_empty() {
        let Some((word, _, rest)) = first_option(command, left) else {
            return false;
        };
        if given(command, rest, word).is_some() {
            return false;
        }
        left = rest;
    }
    true
}

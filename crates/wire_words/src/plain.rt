//! The words of commands without options.

ghost use Rattle.std.specs.Prelude.{◌≡◌, ◌↔◌, ℕ, List, map, IfSome, IfNone, IsTrue, string_bytes};
ghost use Rattle.node_tree.specs.declared.view.Lang.{Lang as lang};
ghost use Rattle.wire_words.specs.Words.{IsMatched, lang_word, AreMatchWords, AreCheckWords, AreDrillWords};

use crate::numbers::number;
use node_tree::Lang;

/// The highest number of `drill`.
const MOST_FILES: u64 = 10_000;

/// The language that a word names, if its files are matched.
fn lang_of(word: &str) -> Option<Lang>
    ensures named { IfSome result (λ l. IsMatched l × (word.now ≡ lang_word l)) }
    ensures none { IfNone result ((l : lang) → IsMatched l → word.now ≡ lang_word l → ⊥) }
{
    if word == "json" {
        return Some(Lang::Json);
    }
    if word == "python" {
        return Some(Lang::Python);
    }
    if word == "c" {
        return Some(Lang::C);
    }
    None
}

/// The language and the pattern in the words `match LANG PATTERN`.
pub fn match_words(words: &[String]) -> Option<(Lang, &str)>
    ensures asked { IfSome result (λ p. AreMatchWords (map string_bytes words.now) p.0 p.1.now) }
    ensures other { IfNone result ((l : lang) (pattern : List ℕ) → AreMatchWords (map string_bytes words.now) l pattern → ⊥) }
{
    let [command, word, pattern] = words else {
        return None;
    };
    if command.as_str() != "match" {
        return None;
    }
    let lang = lang_of(word.as_str())?;
    Some((lang, pattern.as_str()))
}

/// Whether the words are `check json`.
pub fn is_check(words: &[String]) -> bool
    ensures { IsTrue result ↔ AreCheckWords (map string_bytes words.now) }
{
    let [command, word] = words else {
        return false;
    };
    command.as_str() == "check" && word.as_str() == "json"
}

/// The number in the words `drill N`.
pub fn drill_words(words: &[String]) -> Option<u32>
    ensures asked { IfSome result (AreDrillWords (map string_bytes words.now)) }
    ensures other { IfNone result ((n : ℕ) → AreDrillWords (map string_bytes words.now) n → ⊥) }
{
    let [command, word] = words else {
        return None;
    };
    if command.as_str() != "drill" {
        return None;
    }
    let count = number(word.as_str(), MOST_FILES)?;
    if count == 0 {
        return None;
    }
    Some(count as u32)
}

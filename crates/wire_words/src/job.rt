//! The words of commands that have options.

ghost use Rattle.std.specs.Prelude.{◌≡◌, ◌∷◌, [], ◌++◌, ◌↔◌, ℕ, Bool, List, Option, map, IfSome, IfNone, IsTrue, string_bytes};
ghost use Rattle.wire_words.specs.Options as spec;
ghost use Rattle.wire_words.specs.Options.{Choice, AreChoices, text_in};
ghost use Rattle.wire_words.specs.Commands.{Task, AreJobWords, AreSessionWords, task_of, IsMost, IsConfig, IsStore, IsPrefix as is_prefix_text};

use crate::command::Job;
use crate::numbers::{MOST_FINDINGS, number};
use crate::options::{Subcommand, are_options, given};
use path_glob::path_ok;

/// Whether a word is a prefix: a path, or `.` for all.
fn is_prefix(word: &str) -> bool
    ensures { IsTrue result ↔ is_prefix_text word.now }
{
    word == "." || path_ok(word)
}

/// The value of the option of this word, where the words are options and it is among them.
fn value<'w>(command: Subcommand, words: &'w [String], wanted: &str) -> Option<&'w str>
    ensures { (cs : List Choice) → AreChoices command (map string_bytes words.now) cs → text_in result ≡ spec.value_of wanted.now cs }
{
    given(command, words, wanted)?
}

/// The limit of findings that the value of `--max` is.
fn most_of(value: Option<&str>) -> Option<u64>
    ensures some { IfSome result (IsMost (text_in value.entry)) }
    ensures none { IfNone result ((n : ℕ) → IsMost (text_in value.entry) n → ⊥) }
{
    match value {
        None => Some(MOST_FINDINGS),
        Some(word) => number(word, MOST_FINDINGS),
    }
}

/// The path that the value of `--config` is.
fn config_of(value: Option<&str>) -> Option<&str>
    ensures some { IfSome result (λ path. IsConfig (text_in value.entry) path.now) }
    ensures none { IfNone result ((path : List ℕ) → IsConfig (text_in value.entry) path → ⊥) }
{
    match value {
        Some(path) if path_ok(path) => Some(path),
        _ => None,
    }
}

/// The path that the value of `--store` is, if there is one.
fn store_of<'w>(config: &str, value: Option<&'w str>) -> Option<Option<&'w str>>
    ensures some { IfSome result (λ store. IsStore config.now (text_in value.entry) (text_in store)) }
    ensures none { IfNone result ((store : Option (List ℕ)) → IsStore config.now (text_in value.entry) store → ⊥) }
{
    match value {
        None => Some(None),
        Some(path) if path_ok(path) && path != config => Some(Some(path)),
        Some(_) => None,
    }
}

/// The words between this command and the last word, and the last word.
fn parts<'w>(name: &str, words: &'w [String]) -> Option<(&'w [String], &'w str)>
    ensures some { IfSome result (λ p. map string_bytes words.now ≡ name.now ∷ (map string_bytes p.0.now ++ (p.1.now ∷ []))) }
    ensures none { IfNone result ((options : List (List ℕ)) (last : List ℕ) → map string_bytes words.now ≡ name.now ∷ (options ++ (last ∷ [])) → ⊥) }
{
    let (first, rest) = words.split_first()?;
    if first.as_str() != name {
        return None;
    }
    let (last, options) = rest.split_last()?;
    Some((options, last.as_str()))
}

/// The job in the words of a command over a folder, which has this name and this flag.
pub fn job<'w>(command: Subcommand, name: &str, flag: &str, words: &'w [String]) -> Option<Job<'w>>
    ensures asked { IfSome result (λ j. AreJobWords command name.now flag.now (map string_bytes words.now) (task_of j)) }
    ensures other { IfNone result ((task : Task) → AreJobWords command name.now flag.now (map string_bytes words.now) task → ⊥) }
{
    let (options, prefix) = parts(name, words)?;
    if !is_prefix(prefix) || !are_options(command, options) {
        return None;
    }
    let most = most_of(value(command, options, "--max"))?;
    let config = config_of(value(command, options, "--config"))?;
    let store = store_of(config, value(command, options, "--store"))?;
    Some(Job {
        flag: given(command, options, flag).is_some(),
        most,
        config,
        prefix,
        trace: given(command, options, "--trace").is_some(),
        store,
    })
}

/// The limit of findings in the words of `session`, and whether they ask for traces.
pub fn session(words: &[String]) -> Option<(u64, bool)>
    ensures asked { IfSome result (λ p. AreSessionWords (map string_bytes words.now) p.0 p.1) }
    ensures other { IfNone result ((most : ℕ) (trace : Bool) → AreSessionWords (map string_bytes words.now) most trace → ⊥) }
{
    let (first, options) = words.split_first()?;
    if first.as_str() != "session" || !are_options(Subcommand::Session, options) {
        return None;
    }
    let most = most_of(value(Subcommand::Session, options, "--max"))?;
    let trace = given(Subcommand::Session, options, "--trace").is_some();
    Some((most, trace))
}

//! The table of words.

ghost use Rattle.std.specs.Prelude.{◌≡◌, map, IfSome, IsSomeAnd, string_bytes};
ghost use Rattle.wire_words.specs.Commands.{Request, IsCommand, request as asked};

use crate::command::Command;
use crate::job::{job, session};
use crate::options::Subcommand;
use crate::plain::{drill_words, is_check, match_words};

/// The command that the words are. It is None exactly for words outside the table, as the words ask for at most one thing.
pub fn read_words(words: &Vec<String>) -> Option<Command<'_>>
    ensures read { IfSome result (λ command. IsCommand (map string_bytes words.now.items) (asked command)) }
    ensures only { (r : Request) → IsCommand (map string_bytes words.now.items) r → IsSomeAnd result (λ command. asked command ≡ r) }
{
    if let Some((lang, pattern)) = match_words(words) {
        return Some(Command::Match(lang, pattern));
    }
    if is_check(words) {
        return Some(Command::Check);
    }
    if let Some(job) = job(Subcommand::Scan, "scan", "--error", words) {
        return Some(Command::Scan(job));
    }
    if let Some(job) = job(Subcommand::Fix, "fix", "--dryrun", words) {
        return Some(Command::Fix(job));
    }
    if let Some((most, trace)) = session(words) {
        return Some(Command::Session(most, trace));
    }
    let count = drill_words(words)?;
    Some(Command::Drill(count))
}

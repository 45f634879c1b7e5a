//! What stands at a place in the tokens.

ghost use Rattle.std.specs.Prelude.{◌≡◌, ◌≢◌, ◌<◌, true, length, map, eqb, IsTrue};
ghost use Rattle.grammar.specs.Rule.{has};
ghost use Rattle.c_expr.specs.declared.word.Word.TheVariants.{End};
ghost use Rattle.c_expr.specs.Words.{class, none_is_end};
ghost use Rattle.c_expr.specs.Build.{token_at, start_of, span_between};

use crate::word::{Token, Word, class_of};
use node_tree::Span;

/// The word that stands there, or the end.
fn word_at(tokens: &[Token<'_>], at: usize) -> Word
    ensures { result ≡ (token_at tokens.now at).word }
{
    match tokens.get(at) {
        Some(token) => token.word,
        None => Word::End,
    }
}

/// Whether this word stands there.
#[tactic(auto, unfolding(crate::specs::Words::class))]
pub fn is(tokens: &[Token<'_>], at: usize, word: Word) -> bool
    ensures test { result ≡ eqb (class word) (class (token_at tokens.now at).word) }
    ensures within { result ≡ true → word ≢ End → at < length tokens.now }
{
    class_of(word) == class_of(word_at(tokens, at))
}

/// Whether one of these words stands there.
pub fn is_among(tokens: &[Token<'_>], at: usize, mut words: &[Word]) -> bool
    requires { IsTrue (none_is_end words.now) }
    ensures test { result ≡ has (map class words.now) (class (token_at tokens.now at).word) }
    ensures within { result ≡ true → at < length tokens.now }
{
    while let [word, rest @ ..] = words {
        if is(tokens, at, *word) {
            return true;
        }
        words = rest;
    }
    false
}

/// Where the token there begins.
pub fn start_at(tokens: &[Token<'_>], at: usize) -> u32
    ensures { result ≡ start_of tokens.now at }
{
    match tokens.get(at) {
        Some(token) => token.span.from,
        None => 0,
    }
}

/// The text of the token there.
pub fn text_at<'t>(tokens: &[Token<'t>], at: usize) -> &'t str
    ensures { result.now ≡ (token_at tokens.now at).text }
{
    match tokens.get(at) {
        Some(token) => token.text.as_str(),
        None => "",
    }
}

/// The bytes from one token up to before another, none where there are no tokens between.
pub fn span_at(tokens: &[Token<'_>], at: usize, end: usize) -> Span
    ensures { result ≡ span_between tokens.now at end }
{
    let from = start_at(tokens, at);
    if at < end {
        let to = match tokens.get(end - 1) {
            Some(token) => token.span.to,
            None => 0,
        };
        return Span { from, to };
    }
    Span { from, to: from }
}

//! What stands at a place.

ghost use Rattle.std.specs.Prelude.{◌≡◌, ◌≢◌, ◌<◌, true, length, eqb};
ghost use Rattle.grammar.specs.Rule.{has};
ghost use Rattle.py_expr.specs.declared.word.Word.TheVariants.{Other};
ghost use Rattle.py_expr.specs.Words.{class};
ghost use Rattle.py_expr.specs.Table as table;
ghost use Rattle.py_expr.specs.Table.{Test, Target, Star, Piece, Arg, Param, Pair, LaterEntry, Inner, ForClause, Clause, Cop, Suffix, Braces};
ghost use Rattle.py_expr.specs.Build.{token_at, end_of};
ghost use Rattle.py_expr.specs.reader.Sets.{sets};
ghost use Rattle.py_expr.specs.reader.Reading as reading;

use crate::item::Item;
use crate::level::{Binary, Place};
use crate::word::Word;

/// The word that stands there, or that of the end.
pub fn word_at(items: &[Item<'_>], at: usize) -> Word
    ensures { result ≡ (token_at items.now at).word }
{
    match items.get(at) {
        Some(item) => item.word,
        None => Word::Other,
    }
}

/// The class of a word.
#[tactic(auto, unfolding(crate::specs::Words::class))]
fn number(word: Word) -> u8
    ensures { result ≡ class word }
{
    word as u8
}

/// Whether this word stands there.
#[tactic(auto, using(crate::proofs::Classes::past_the_end))]
pub fn is(items: &[Item<'_>], at: usize, word: Word) -> bool
    ensures test { result ≡ eqb (class word) (class (token_at items.now at).word) }
    ensures within { result ≡ true → word ≢ Other → at < length items.now }
{
    number(word) == number(word_at(items, at))
}

/// Where the token there begins.
pub fn start_at(items: &[Item<'_>], at: usize) -> u32
    ensures { result ≡ (token_at items.now at).span.from }
{
    match items.get(at) {
        Some(item) => item.span.from,
        None => 0,
    }
}

/// Where the piece that ends before this token ends.
pub fn end_before(items: &[Item<'_>], at: usize) -> u32
    ensures { result ≡ end_of items.now at }
{
    match items.get(at.saturating_sub(1)) {
        Some(item) => item.span.to,
        None => 0,
    }
}

/// Whether a comma stands there.
#[tactic(auto, unfolding(crate::specs::Words::class))]
pub fn is_comma(items: &[Item<'_>], at: usize) -> bool
    ensures test { result ≡ has (table.commas) (class (token_at items.now at).word) }
    ensures within { result ≡ true → at < length items.now }
{
    matches!(word_at(items, at), Word::Comma | Word::CommaDots)
}

/// Whether a name stands there.
#[tactic(auto, unfolding(crate::specs::Words::class))]
pub fn is_name(items: &[Item<'_>], at: usize) -> bool
    ensures test { result ≡ has (table.names) (class (token_at items.now at).word) }
    ensures within { result ≡ true → at < length items.now }
{
    matches!(word_at(items, at), Word::Name | Word::Meta)
}

/// Whether a string stands there.
#[tactic(auto, unfolding(crate::specs::Words::class))]
pub fn is_string(items: &[Item<'_>], at: usize) -> bool
    ensures test { result ≡ has (table.strings) (class (token_at items.now at).word) }
    ensures within { result ≡ true → at < length items.now }
{
    matches!(word_at(items, at), Word::Str | Word::FStr | Word::StrAny)
}

/// Whether dots stand there, which take the place of items.
#[tactic(auto, unfolding(crate::specs::Words::class))]
pub fn is_dots(items: &[Item<'_>], at: usize) -> bool
    ensures test { result ≡ has (table.dots) (class (token_at items.now at).word) }
    ensures within { result ≡ true → at < length items.now }
{
    matches!(word_at(items, at), Word::Dots | Word::MetaDots)
}

/// Whether an atom of one token stands there, other than a string.
#[tactic(auto, unfolding(crate::specs::Words::class))]
pub fn is_scalar(items: &[Item<'_>], at: usize) -> bool
    ensures test { result ≡ has (table.scalars) (class (token_at items.now at).word) }
    ensures within { result ≡ true → at < length items.now }
{
    matches!(
        word_at(items, at),
        Word::Name
            | Word::Meta
            | Word::Number
            | Word::Const
            | Word::Ellipsis
            | Word::Dots
            | Word::MetaDots
    )
}

/// Whether an operator of a comparison stands there that is one token.
#[tactic(auto, unfolding(crate::specs::Words::class))]
pub fn is_comparison(items: &[Item<'_>], at: usize) -> bool
    ensures test { result ≡ has (table.comparisons) (class (token_at items.now at).word) }
    ensures within { result ≡ true → at < length items.now }
{
    matches!(word_at(items, at), Word::Compare | Word::In)
}

/// Whether an operator before its operand stands there.
#[tactic(auto, unfolding(crate::specs::Words::class))]
pub fn is_sign(items: &[Item<'_>], at: usize) -> bool
    ensures test { result ≡ has (table.signs) (class (token_at items.now at).word) }
    ensures within { result ≡ true → at < length items.now }
{
    matches!(word_at(items, at), Word::Sign | Word::Tilde)
}

/// Whether a test begins there.
#[tactic(auto, unfolding(crate::specs::Words::class))]
pub fn starts_test(items: &[Item<'_>], at: usize) -> bool
    ensures test { result ≡ has (sets.first Test) (class (token_at items.now at).word) }
    ensures within { result ≡ true → at < length items.now }
{
    matches!(
        word_at(items, at),
        Word::Name
            | Word::Meta
            | Word::Lambda
            | Word::Not
            | Word::Sign
            | Word::Tilde
            | Word::Await
            | Word::LeftRound
            | Word::LeftSquare
            | Word::Number
            | Word::Const
            | Word::Ellipsis
            | Word::Dots
            | Word::MetaDots
            | Word::Str
            | Word::FStr
            | Word::StrAny
            | Word::LeftBrace
            | Word::BraceDots
            | Word::DeepOpen
    )
}

/// Whether an item of a list or a tuple begins there.
#[tactic(auto, unfolding(crate::specs::Words::class))]
pub fn starts_star(items: &[Item<'_>], at: usize) -> bool
    ensures test { result ≡ has (sets.first Star) (class (token_at items.now at).word) }
    ensures within { result ≡ true → at < length items.now }
{
    matches!(
        word_at(items, at),
        Word::Times
            | Word::Name
            | Word::Meta
            | Word::Lambda
            | Word::Not
            | Word::Sign
            | Word::Tilde
            | Word::Await
            | Word::LeftRound
            | Word::LeftSquare
            | Word::Number
            | Word::Const
            | Word::Ellipsis
            | Word::Dots
            | Word::MetaDots
            | Word::Str
            | Word::FStr
            | Word::StrAny
            | Word::LeftBrace
            | Word::BraceDots
            | Word::DeepOpen
    )
}

/// Whether an item of a target begins there.
#[tactic(auto, unfolding(crate::specs::Words::class))]
pub fn starts_target(items: &[Item<'_>], at: usize) -> bool
    ensures test { result ≡ has (sets.first Target) (class (token_at items.now at).word) }
    ensures within { result ≡ true → at < length items.now }
{
    matches!(
        word_at(items, at),
        Word::Times
            | Word::Name
            | Word::Meta
            | Word::Sign
            | Word::Tilde
            | Word::Await
            | Word::LeftRound
            | Word::LeftSquare
            | Word::Number
            | Word::Const
            | Word::Ellipsis
            | Word::Dots
            | Word::MetaDots
            | Word::Str
            | Word::FStr
            | Word::StrAny
            | Word::LeftBrace
            | Word::BraceDots
            | Word::DeepOpen
    )
}

/// Whether a slice or another index begins there.
#[tactic(auto, unfolding(crate::specs::Words::class))]
pub fn starts_piece(items: &[Item<'_>], at: usize) -> bool
    ensures test { result ≡ has (sets.first Piece) (class (token_at items.now at).word) }
    ensures within { result ≡ true → at < length items.now }
{
    matches!(
        word_at(items, at),
        Word::Times
            | Word::Name
            | Word::Meta
            | Word::Lambda
            | Word::Colon
            | Word::Not
            | Word::Sign
            | Word::Tilde
            | Word::Await
            | Word::LeftRound
            | Word::LeftSquare
            | Word::Number
            | Word::Const
            | Word::Ellipsis
            | Word::Dots
            | Word::MetaDots
            | Word::Str
            | Word::FStr
            | Word::StrAny
            | Word::LeftBrace
            | Word::BraceDots
            | Word::DeepOpen
    )
}

/// Whether an argument begins there.
#[tactic(auto, unfolding(crate::specs::Words::class))]
pub fn starts_arg(items: &[Item<'_>], at: usize) -> bool
    ensures test { result ≡ has (sets.first Arg) (class (token_at items.now at).word) }
    ensures within { result ≡ true → at < length items.now }
{
    matches!(
        word_at(items, at),
        Word::Times
            | Word::Name
            | Word::Meta
            | Word::Lambda
            | Word::Not
            | Word::Sign
            | Word::Tilde
            | Word::Power
            | Word::Await
            | Word::LeftRound
            | Word::LeftSquare
            | Word::Number
            | Word::Const
            | Word::Ellipsis
            | Word::Dots
            | Word::MetaDots
            | Word::Str
            | Word::FStr
            | Word::StrAny
            | Word::LeftBrace
            | Word::BraceDots
            | Word::DeepOpen
    )
}

/// Whether a parameter begins there.
#[tactic(auto, unfolding(crate::specs::Words::class))]
pub fn starts_param(items: &[Item<'_>], at: usize) -> bool
    ensures test { result ≡ has (sets.first Param) (class (token_at items.now at).word) }
    ensures within { result ≡ true → at < length items.now }
{
    matches!(
        word_at(items, at),
        Word::Times
            | Word::Name
            | Word::Meta
            | Word::Slash
            | Word::Power
            | Word::Dots
            | Word::MetaDots
    )
}

/// Whether a pair of a dictionary begins there.
#[tactic(auto, unfolding(crate::specs::Words::class))]
pub fn starts_pair(items: &[Item<'_>], at: usize) -> bool
    ensures test { result ≡ has (sets.first Pair) (class (token_at items.now at).word) }
    ensures within { result ≡ true → at < length items.now }
{
    matches!(
        word_at(items, at),
        Word::Name
            | Word::Meta
            | Word::Lambda
            | Word::Not
            | Word::Sign
            | Word::Tilde
            | Word::Power
            | Word::Await
            | Word::LeftRound
            | Word::LeftSquare
            | Word::Number
            | Word::Const
            | Word::Ellipsis
            | Word::Dots
            | Word::MetaDots
            | Word::Str
            | Word::FStr
            | Word::StrAny
            | Word::LeftBrace
            | Word::BraceDots
            | Word::DeepOpen
    )
}

/// Whether an entry in braces begins there.
#[tactic(auto, unfolding(crate::specs::Words::class))]
pub fn starts_entry(items: &[Item<'_>], at: usize) -> bool
    ensures test { result ≡ has (sets.first LaterEntry) (class (token_at items.now at).word) }
    ensures within { result ≡ true → at < length items.now }
{
    matches!(
        word_at(items, at),
        Word::Times
            | Word::Name
            | Word::Meta
            | Word::Lambda
            | Word::Not
            | Word::Sign
            | Word::Tilde
            | Word::Power
            | Word::Await
            | Word::LeftRound
            | Word::LeftSquare
            | Word::Number
            | Word::Const
            | Word::Ellipsis
            | Word::Dots
            | Word::MetaDots
            | Word::Str
            | Word::FStr
            | Word::StrAny
            | Word::LeftBrace
            | Word::BraceDots
            | Word::DeepOpen
    )
}

/// Whether what stands in parentheses begins there.
#[tactic(auto, unfolding(crate::specs::Words::class))]
pub fn starts_inner(items: &[Item<'_>], at: usize) -> bool
    ensures test { result ≡ has (sets.first Inner) (class (token_at items.now at).word) }
    ensures within { result ≡ true → at < length items.now }
{
    matches!(
        word_at(items, at),
        Word::Times
            | Word::Name
            | Word::Meta
            | Word::Lambda
            | Word::Not
            | Word::Sign
            | Word::Tilde
            | Word::Await
            | Word::LeftRound
            | Word::LeftSquare
            | Word::Number
            | Word::Const
            | Word::Ellipsis
            | Word::Dots
            | Word::MetaDots
            | Word::Str
            | Word::FStr
            | Word::StrAny
            | Word::LeftBrace
            | Word::BraceDots
            | Word::DeepOpen
            | Word::Yield
    )
}

/// Whether a `for` clause begins there.
#[tactic(auto, unfolding(crate::specs::Words::class))]
pub fn starts_for(items: &[Item<'_>], at: usize) -> bool
    ensures test { result ≡ has (sets.first ForClause) (class (token_at items.now at).word) }
    ensures within { result ≡ true → at < length items.now }
{
    matches!(word_at(items, at), Word::Async | Word::For)
}

/// Whether a clause begins there.
#[tactic(auto, unfolding(crate::specs::Words::class))]
pub fn starts_clause(items: &[Item<'_>], at: usize) -> bool
    ensures test { result ≡ has (sets.first Clause) (class (token_at items.now at).word) }
    ensures within { result ≡ true → at < length items.now }
{
    matches!(word_at(items, at), Word::If | Word::Async | Word::For)
}

/// Whether an operator of a comparison begins there.
#[tactic(auto, unfolding(crate::specs::Words::class))]
pub fn starts_cop(items: &[Item<'_>], at: usize) -> bool
    ensures test { result ≡ has (sets.first Cop) (class (token_at items.now at).word) }
    ensures within { result ≡ true → at < length items.now }
{
    matches!(
        word_at(items, at),
        Word::Compare | Word::In | Word::Not | Word::Is
    )
}

/// Whether what stands behind an atom begins there.
#[tactic(auto, unfolding(crate::specs::Words::class))]
pub fn starts_suffix(items: &[Item<'_>], at: usize) -> bool
    ensures test { result ≡ has (sets.first Suffix) (class (token_at items.now at).word) }
    ensures within { result ≡ true → at < length items.now }
{
    matches!(
        word_at(items, at),
        Word::Dot | Word::LeftRound | Word::LeftSquare
    )
}

/// Whether a brace opens there.
#[tactic(auto, unfolding(crate::specs::Words::class))]
pub fn starts_braces(items: &[Item<'_>], at: usize) -> bool
    ensures test { result ≡ has (sets.first Braces) (class (token_at items.now at).word) }
    ensures within { result ≡ true → at < length items.now }
{
    matches!(word_at(items, at), Word::LeftBrace | Word::BraceDots)
}

/// Whether an operator of this level stands there.
#[tactic(auto, unfolding(crate::specs::Words::class))]
pub fn is_operator(items: &[Item<'_>], at: usize, level: Binary) -> bool
    ensures test { result ≡ has (reading.operators_of level) (class (token_at items.now at).word) }
    ensures within { result ≡ true → at < length items.now }
{
    match level {
        Binary::Or => matches!(word_at(items, at), Word::Or),
        Binary::And => matches!(word_at(items, at), Word::And),
        Binary::Bar => matches!(word_at(items, at), Word::Bar),
        Binary::Caret => matches!(word_at(items, at), Word::Caret),
        Binary::Ampersand => matches!(word_at(items, at), Word::Ampersand),
        Binary::Shift => matches!(word_at(items, at), Word::Shift),
        Binary::Sign => matches!(word_at(items, at), Word::Sign),
        Binary::Factor => matches!(
            word_at(items, at),
            Word::Times | Word::Slash | Word::Factor | Word::At
        ),
    }
}

/// Whether an item of a place begins there.
pub fn starts_item(items: &[Item<'_>], at: usize, place: Place) -> bool
    ensures test { result ≡ has (sets.first (reading.item_of place)) (class (token_at items.now at).word) }
    ensures within { result ≡ true → at < length items.now }
{
    match place {
        Place::Star | Place::Item => starts_star(items, at),
        Place::Target => starts_target(items, at),
        Place::Piece => starts_piece(items, at),
        Place::Arg | Place::FirstArg => starts_arg(items, at),
        Place::Param | Place::LambdaParam => starts_param(items, at),
    }
}

/// Whether a comprehension may begin at a place.
pub fn takes_clauses(place: Place) -> bool
    ensures { result ≡ reading.takes_clauses place }
{
    matches!(place, Place::Item | Place::FirstArg)
}

/// The place behind an item in braces, where a comprehension may begin behind a first one.
pub fn set_place(first: bool) -> Place
    ensures { result ≡ reading.set_place first }
{
    if first { Place::Item } else { Place::Star }
}

//! What stands at a place.

ghost use Rattle.std.specs.Prelude.{◌≡◌, ◌<◌, true, length, map};
ghost use Rattle.grammar.specs.Rule.{has};
ghost use Rattle.py_expr.specs.Words.{class};
ghost use Rattle.py_expr.specs.Build.{token_at};
ghost use Rattle.py_suite.specs.Table as table;
ghost use Rattle.py_suite.specs.reader.Sets.{sets};

use py_expr::{Item, Word, is};

const COMPOUND: [Word; 9] = [
    Word::If,
    Word::At,
    Word::Async,
    Word::For,
    Word::While,
    Word::With,
    Word::Try,
    Word::Def,
    Word::Class,
];

const STATEMENT: [Word; 42] = [
    Word::Times,
    Word::Name,
    Word::Meta,
    Word::If,
    Word::Lambda,
    Word::Not,
    Word::Sign,
    Word::At,
    Word::Tilde,
    Word::Await,
    Word::LeftRound,
    Word::LeftSquare,
    Word::Number,
    Word::Const,
    Word::Ellipsis,
    Word::Dots,
    Word::MetaDots,
    Word::Str,
    Word::FStr,
    Word::StrAny,
    Word::LeftBrace,
    Word::BraceDots,
    Word::DeepOpen,
    Word::Async,
    Word::For,
    Word::Yield,
    Word::From,
    Word::Pass,
    Word::Break,
    Word::Continue,
    Word::Return,
    Word::Del,
    Word::Raise,
    Word::Assert,
    Word::Global,
    Word::Nonlocal,
    Word::Import,
    Word::While,
    Word::With,
    Word::Try,
    Word::Def,
    Word::Class,
];

const SIMPLE: [Word; 33] = [
    Word::Times,
    Word::Name,
    Word::Meta,
    Word::Lambda,
    Word::Not,
    Word::Sign,
    Word::Tilde,
    Word::Await,
    Word::LeftRound,
    Word::LeftSquare,
    Word::Number,
    Word::Const,
    Word::Ellipsis,
    Word::Dots,
    Word::MetaDots,
    Word::Str,
    Word::FStr,
    Word::StrAny,
    Word::LeftBrace,
    Word::BraceDots,
    Word::DeepOpen,
    Word::Yield,
    Word::From,
    Word::Pass,
    Word::Break,
    Word::Continue,
    Word::Return,
    Word::Del,
    Word::Raise,
    Word::Assert,
    Word::Global,
    Word::Nonlocal,
    Word::Import,
];

const WORDED: [Word; 7] = [
    Word::Pass,
    Word::Break,
    Word::Continue,
    Word::Return,
    Word::Del,
    Word::Raise,
    Word::Assert,
];

const NAMING: [Word; 4] = [Word::From, Word::Global, Word::Nonlocal, Word::Import];

const DOTTED: [Word; 2] = [Word::Name, Word::Meta];

const ALIAS: [Word; 4] = [Word::Name, Word::Meta, Word::Dots, Word::MetaDots];

const BRANCHES: [Word; 2] = [Word::Else, Word::Elif];

/// Whether one of these words stands there.
#[tactic(auto, using(crate::proofs::Among::has_more))]
pub fn is_among(items: &[Item<'_>], at: usize, words: &[Word]) -> bool
    ensures { result ≡ has (map class words.now) (class (token_at items.now at).word) }
{
    for word in words {
        if is(items, at, *word) {
            return true;
        }
    }
    false
}

/// Whether a point of a relative import stands there; `...` is one token.
pub fn is_point(items: &[Item<'_>], at: usize) -> bool
    ensures test { result ≡ has table.points (class (token_at items.now at).word) }
    ensures within { result ≡ true → at < length items.now }
{
    is(items, at, Word::Dot) || is(items, at, Word::Ellipsis) || is(items, at, Word::Dots)
}

/// Whether a compound statement begins there.
pub fn starts_compound(items: &[Item<'_>], at: usize) -> bool
    ensures { result ≡ has (sets.first table.Compound) (class (token_at items.now at).word) }
{
    is_among(items, at, &COMPOUND)
}

/// Whether a statement begins there.
pub fn starts_statement(items: &[Item<'_>], at: usize) -> bool
    ensures { result ≡ has (sets.first table.Stmt) (class (token_at items.now at).word) }
{
    is_among(items, at, &STATEMENT)
}

/// Whether a simple statement begins there.
pub fn starts_simple(items: &[Item<'_>], at: usize) -> bool
    ensures { result ≡ has (sets.first table.Simple) (class (token_at items.now at).word) }
{
    is_among(items, at, &SIMPLE)
}

/// Whether a statement of a keyword begins there.
pub fn starts_worded(items: &[Item<'_>], at: usize) -> bool
    ensures { result ≡ has (sets.first table.Worded) (class (token_at items.now at).word) }
{
    is_among(items, at, &WORDED)
}

/// Whether a statement that declares or imports names begins there.
pub fn starts_naming(items: &[Item<'_>], at: usize) -> bool
    ensures { result ≡ has (sets.first table.Naming) (class (token_at items.now at).word) }
{
    is_among(items, at, &NAMING)
}

/// Whether a dotted name begins there.
pub fn starts_dotted(items: &[Item<'_>], at: usize) -> bool
    ensures { result ≡ has (sets.first table.Dotted) (class (token_at items.now at).word) }
{
    is_among(items, at, &DOTTED)
}

/// Whether the name of an import begins, or dots of a pattern there.
pub fn starts_alias(items: &[Item<'_>], at: usize) -> bool
    ensures { result ≡ has (sets.first table.Alias) (class (token_at items.now at).word) }
{
    is_among(items, at, &ALIAS)
}

/// Whether an `elif` or an `else` part begins there.
pub fn starts_branches(items: &[Item<'_>], at: usize) -> bool
    ensures { result ≡ has (sets.first table.Branches) (class (token_at items.now at).word) }
{
    is_among(items, at, &BRANCHES)
}

//! What begins an item.

ghost use Rattle.std.specs.Prelude.{◌≡◌, ◌<◌, true, length};
ghost use Rattle.grammar.specs.Rule.{has};
ghost use Rattle.c_expr.specs.Words.{class};
ghost use Rattle.c_expr.specs.Table as e;
ghost use Rattle.c_expr.specs.Build.{token_at};
ghost use Rattle.c_items.specs.Table as table;
ghost use Rattle.c_items.specs.Table.{Expression};
ghost use Rattle.c_items.specs.reader.Sets.{sets};

use c_expr::{Token, Word, is_among};

/// What begins an expression.
const EXPRESSION: [Word; 16] = [
    Word::Star,
    Word::Sign,
    Word::Ampersand,
    Word::OpenRound,
    Word::Flip,
    Word::Step,
    Word::Sizeof,
    Word::Name,
    Word::Meta,
    Word::Number,
    Word::Char,
    Word::MetaDots,
    Word::Dots,
    Word::Str,
    Word::StrAny,
    Word::DeepOpen,
];

/// What begins a statement, a declaration or another item of a block.
const ITEM: [Word; 33] = [
    Word::Star,
    Word::Sign,
    Word::Ampersand,
    Word::OpenRound,
    Word::Flip,
    Word::Step,
    Word::Sizeof,
    Word::Name,
    Word::Meta,
    Word::Number,
    Word::Char,
    Word::MetaDots,
    Word::Dots,
    Word::Str,
    Word::StrAny,
    Word::DeepOpen,
    Word::Qualifier,
    Word::TypeWord,
    Word::Tag,
    Word::OpenCurly,
    Word::Semicolon,
    Word::Directive,
    Word::Case,
    Word::Default,
    Word::If,
    Word::While,
    Word::Do,
    Word::For,
    Word::Switch,
    Word::Return,
    Word::Break,
    Word::Continue,
    Word::Goto,
];

/// What begins an item of a file.
const FILE_ITEM: [Word; 9] = [
    Word::Name,
    Word::Meta,
    Word::MetaDots,
    Word::Dots,
    Word::Qualifier,
    Word::TypeWord,
    Word::Tag,
    Word::Semicolon,
    Word::Directive,
];

/// What begins a declarator.
const VARIABLE: [Word; 4] = [Word::Star, Word::OpenRound, Word::Name, Word::Meta];

/// Whether an expression begins there.
pub fn starts_expression(tokens: &[Token<'_>], at: usize) -> bool
    ensures { result ≡ has (sets.first (Expression e.Comma)) (class (token_at tokens.now at).word) }
{
    is_among(tokens, at, &EXPRESSION)
}

/// Whether an item of a block begins there.
pub fn starts_item(tokens: &[Token<'_>], at: usize) -> bool
    ensures { result ≡ has (sets.first table.Item) (class (token_at tokens.now at).word) }
{
    is_among(tokens, at, &ITEM)
}

/// Whether an item of a file begins there.
pub fn starts_file_item(tokens: &[Token<'_>], at: usize) -> bool
    ensures { result ≡ has (sets.first table.FileItem) (class (token_at tokens.now at).word) }
{
    is_among(tokens, at, &FILE_ITEM)
}

/// Whether a variable begins there.
pub fn starts_variable(tokens: &[Token<'_>], at: usize) -> bool
    ensures { result ≡ has (sets.first (Expression e.Var)) (class (token_at tokens.now at).word) }
{
    is_among(tokens, at, &VARIABLE)
}

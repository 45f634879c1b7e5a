//! Nodes, and parts that are to become nodes.

ghost use Rattle.std.specs.Prelude.{◌≡◌, ◌+◌, ◌<◌, ◌≤◌, [], ◌∷◌, ◌++◌, reverse, length, IfOk, codes};
ghost use Rattle.node_tree.specs.declared.kind.Kind.TheVariants as k;
ghost use Rattle.py_expr.specs.Parts.{whole, node, wholes};
ghost use Rattle.py_expr.specs.Build.{token_at};
ghost use Rattle.py_expr.specs.Build as build;
ghost use Rattle.py_expr.specs.reader.Reading as reading;

use crate::item::Item;
use crate::strings::{shown_prefix, shown_string};
use crate::word::Word;
use node_tree::{Kind, List, Memory, Node, Span, Text, Twin};
use std::alloc::Global;

/// How many first kids below one another make a tree too deep.
pub const TOO_DEEP: u32 = 501;

/// What comes after a first item.
#[derive(Drop)]
pub enum After {
    Nothing,
    /// Further items, behind a comma.
    Further(List<Node>),
    /// The clauses of a comprehension.
    Clauses(List<Node>),
}

/// A node that lacks its first kid. Without another kid it is a call without arguments.
#[derive(Drop)]
pub struct Tail {
    pub kind: Kind,
    pub text: Text,
    pub to: u32,
    pub kid: Option<Node>,
}

/// What stands in braces: the kind and the text of its node, and the kids.
#[derive(Drop)]
pub struct Entries {
    pub kind: Kind,
    pub text: Text,
    pub kids: List<Node>,
}

/// A node of these parts.
pub fn node_of(kind: Kind, text: Text, from: u32, to: u32, kids: List<Node>) -> Node
    ensures { result ≡ node kind text from to kids }
{
    Node {
        kind,
        text,
        kids,
        span: Span { from, to },
    }
}

/// A node without text.
pub fn over(alloc: Global, kind: Kind, from: u32, to: u32, kids: List<Node>) -> Node
    ensures { result ≡ node kind [] from to kids }
{
    node_of(kind, Text::new(alloc), from, to, kids)
}

/// What is absent.
pub fn absent(alloc: Global, from: u32) -> Node
    ensures { result ≡ build.absent from }
{
    over(alloc, Kind::Absent, from, from, List::new(alloc))
}

/// A list without items.
pub fn empty_list(alloc: Global, from: u32) -> Node
    ensures { result ≡ build.empty_list from }
{
    over(alloc, Kind::List, from, from, List::new(alloc))
}

/// What stands there, or that it is absent.
pub fn or_absent(alloc: Global, from: u32, found: Option<Node>) -> Node
    ensures { build.or_absent from (reading.found found) ≡ result ∷ [] }
{
    match found {
        Some(node) => node,
        None => absent(alloc, from),
    }
}

/// A list of one node.
pub fn one(alloc: Global, a: Node) -> Result<List<Node>, Memory>
    ensures { IfOk result (λ ns. ns ≡ a ∷ []) }
{
    Ok(List::from_vec(vec![in alloc; a]?))
}

/// A list of two nodes.
pub fn two(alloc: Global, a: Node, b: Node) -> Result<List<Node>, Memory>
    ensures { IfOk result (λ ns. ns ≡ a ∷ b ∷ []) }
{
    Ok(List::from_vec(vec![in alloc; a, b]?))
}

/// A list of three nodes.
pub fn three(alloc: Global, a: Node, b: Node, c: Node) -> Result<List<Node>, Memory>
    ensures { IfOk result (λ ns. ns ≡ a ∷ b ∷ c ∷ []) }
{
    Ok(List::from_vec(vec![in alloc; a, b, c]?))
}

/// The nodes with one before them.
pub fn before(first: Node, mut rest: List<Node>) -> Result<List<Node>, Memory>
    ensures { IfOk result (λ ns. ns ≡ first ∷ rest) }
{
    rest.insert(0, first)?;
    Ok(rest)
}

/// The nodes of a list and then those of another from its end on.
#[tactic(auto, using(crate::proofs::Orders::order_laws))]
fn push_reversed(mut front: List<Node>, mut back: List<Node>) -> Result<List<Node>, Memory>
    ensures { IfOk result (λ ns. ns ≡ front ++ reverse back) }
{
    'kids: while let Some(kid) = back.pop() {
        front.push(kid)?;
    }
    Ok(front)
}

/// The nodes of two lists, in order.
#[tactic(auto, using(crate::proofs::Orders::order_laws))]
pub fn append(front: List<Node>, mut back: List<Node>) -> Result<List<Node>, Memory>
    ensures { IfOk result (λ ns. ns ≡ reading.appended front back) }
{
    back.reverse();
    push_reversed(front, back)
}

/// The kind of the node that a token makes, where it makes one.
fn kind_of(word: Word) -> Kind
    ensures { result ≡ build.kind_of word }
{
    match word {
        Word::Name => Kind::Name,
        Word::Meta => Kind::Meta,
        Word::Number => Kind::Number,
        Word::Const => Kind::Const,
        Word::Ellipsis => Kind::Ellipsis,
        Word::Dots => Kind::Dots,
        Word::MetaDots => Kind::MetaDots,
        Word::Str => Kind::Str,
        Word::FStr => Kind::FStr,
        Word::StrAny => Kind::StrAny,
        _ => Kind::Absent,
    }
}

/// The same where a name is no expression.
fn ident_kind(word: Word) -> Kind
    ensures { result ≡ build.ident_kind word }
{
    match word {
        Word::Name => Kind::Id,
        other => kind_of(other),
    }
}

/// The text of the node that a token makes.
fn shown(alloc: Global, word: Word, text: &str) -> Result<Text, Memory>
    ensures { IfOk result (λ t. t ≡ build.shown word text.now) }
{
    match word {
        Word::Name | Word::Meta | Word::Number | Word::Const | Word::MetaDots => {
            Text::from_str(alloc, text)
        }
        Word::Str => shown_string(alloc, text),
        Word::FStr => shown_prefix(alloc, text),
        _ => Ok(Text::new(alloc)),
    }
}

/// A node of one token.
fn leaf_of(alloc: Global, kind: Kind, item: &Item<'_>) -> Result<Node, Memory>
    ensures { IfOk result (λ n. n ≡ build.leaf_of kind item.now) }
{
    Ok(Node {
        kind,
        text: shown(alloc, item.word, item.text.as_str())?,
        kids: item.inside.copy()?,
        span: item.span,
    })
}

/// The node of the token there.
pub fn leaf(alloc: Global, items: &[Item<'_>], at: usize) -> Result<Node, Memory>
    requires { at < length items.now }
    ensures { IfOk result (λ n. n ≡ build.leaf_of (build.kind_of (token_at items.now at).word) (token_at items.now at)) }
{
    let item = &items[at];
    leaf_of(alloc, kind_of(item.word), item)
}

/// The node of the name there, which is no expression.
pub fn ident(alloc: Global, items: &[Item<'_>], at: usize) -> Result<Node, Memory>
    requires { at < length items.now }
    ensures { IfOk result (λ n. n ≡ build.leaf_of (build.ident_kind (token_at items.now at).word) (token_at items.now at)) }
{
    let item = &items[at];
    leaf_of(alloc, ident_kind(item.word), item)
}

/// The text of the token there.
pub fn text_at(alloc: Global, items: &[Item<'_>], at: usize) -> Result<Text, Memory>
    requires { at < length items.now }
    ensures { IfOk result (λ t. t ≡ (token_at items.now at).text) }
{
    Text::from_str(alloc, items[at].text.as_str())
}

/// How far a node's first kids lead down, at most so far.
pub fn spine(node: &Node, most: u32) -> u32
    ensures value { result ≡ build.spine most node.now }
    ensures bound { result ≤ most }
{
    if most == 0 {
        return 0;
    }
    match node.kids.get(0) {
        Some(kid) => spine(kid, most - 1) + 1,
        None => 1,
    }
}

/// The next length of the first kids of a chain.
pub fn farther(far: u32) -> u32
    ensures { result ≡ build.farther far }
{
    if far < TOO_DEEP { far + 1 } else { far }
}

/// A part with its first kid.
fn grafted(alloc: Global, from: u32, first: Node, tail: Tail) -> Result<Node, Memory>
    ensures { IfOk result (λ n. n ≡ build.grafted from first (reading.tail_part tail)) }
{
    let Tail {
        kind,
        text,
        to,
        kid,
    } = tail;
    match kid {
        Some(kid) => {
            let kids = two(alloc, first, kid)?;
            Ok(node_of(kind, text, from, to, kids))
        }
        None => {
            let kids = two(alloc, first, empty_list(alloc, from))?;
            Ok(over(alloc, Kind::Call, from, to, kids))
        }
    }
}

/// A node with the kid of a part too.
fn widened(mut first: Node, tail: Tail) -> Result<Node, Memory>
    ensures { IfOk result (λ n. n ≡ build.widened first (reading.tail_part tail)) }
{
    let Tail { kid, .. } = tail;
    match kid {
        Some(kid) => {
            first.kids.push(kid)?;
            Ok(first)
        }
        None => Ok(first),
    }
}

/// A part with its first kid; where that is too deep, it takes the part's kids instead.
pub fn attached(alloc: Global, from: u32, far: u32, first: Node, tail: Tail) -> Result<Node, Memory>
    ensures { IfOk result (λ n. n ≡ build.attached from far first (reading.tail_part tail)) }
{
    if far < TOO_DEEP {
        grafted(alloc, from, first, tail)
    } else {
        widened(first, tail)
    }
}

/// A text of its own.
fn text_of(alloc: Global, text: &str) -> Result<Text, Memory>
    ensures { IfOk result (λ t. t ≡ text.now) }
{
    Text::from_str(alloc, text)
}

/// What stands in marks: a node of this kind, or a comprehension with this text.
pub fn listed(
    alloc: Global,
    kind: Kind,
    form: &str,
    from: u32,
    to: u32,
    first: Node,
    after: After,
) -> Result<Node, Memory>
    ensures { IfOk result (λ n. build.listed kind form.now from to (whole first ∷ reading.after_parts after) ≡ whole n ∷ []) }
{
    match after {
        After::Nothing => Ok(over(alloc, kind, from, to, one(alloc, first)?)),
        After::Further(rest) => Ok(over(alloc, kind, from, to, before(first, rest)?)),
        After::Clauses(clauses) => {
            let kids = before(first, clauses)?;
            Ok(node_of(Kind::Comp, text_of(alloc, form)?, from, to, kids))
        }
    }
}

/// One node is itself; with a comma it is a tuple.
pub fn grouped(alloc: Global, from: u32, to: u32, first: Node, after: After) -> Result<Node, Memory>
    ensures { IfOk result (λ n. build.grouped from to (whole first ∷ reading.after_parts after) ≡ whole n ∷ []) }
{
    match after {
        After::Nothing => Ok(first),
        after => listed(alloc, Kind::Tuple, "gen", from, to, first, after),
    }
}

/// The list of arguments or parameters.
pub fn list_of(alloc: Global, from: u32, to: u32, first: Node, after: After) -> Result<Node, Memory>
    ensures { IfOk result (λ n. build.list_of from to (whole first ∷ reading.after_parts after) ≡ whole n ∷ []) }
{
    match after {
        After::Clauses(clauses) => {
            let comprehension = listed(
                alloc,
                Kind::List,
                "gen",
                from,
                to,
                first,
                After::Clauses(clauses),
            )?;
            Ok(over(alloc, Kind::List, from, to, one(alloc, comprehension)?))
        }
        after => listed(alloc, Kind::List, "", from, to, first, after),
    }
}

/// What stands in braces that begin with an item: of this kind, or a comprehension with this text.
pub fn displayed(
    alloc: Global,
    kind: Kind,
    form: &str,
    first: Node,
    after: After,
) -> Result<Entries, Memory>
    ensures { IfOk result (λ e. reading.entries_parts e ≡ build.displayed kind form.now (whole first ∷ reading.after_parts after)) }
{
    match after {
        After::Nothing => Ok(Entries {
            kind,
            text: Text::new(alloc),
            kids: one(alloc, first)?,
        }),
        After::Further(rest) => Ok(Entries {
            kind,
            text: Text::new(alloc),
            kids: before(first, rest)?,
        }),
        After::Clauses(clauses) => Ok(Entries {
            kind: Kind::Comp,
            text: text_of(alloc, form)?,
            kids: before(first, clauses)?,
        }),
    }
}

/// The texts of two tokens with a space between them.
pub fn two_words(alloc: Global, items: &[Item<'_>], at: usize) -> Result<Text, Memory>
    requires { at + 1 < length items.now }
    ensures { IfOk result (λ t. t ≡ build.spaced (token_at items.now at).text (token_at items.now (at + 1)).text) }
{
    let mut text = text_at(alloc, items, at)?;
    text.push(" ")?;
    text.push(items[at + 1].text.as_str())?;
    Ok(text)
}

/// A slice.
pub fn slice(
    alloc: Global,
    from: u32,
    to: u32,
    low: Node,
    high: Option<Node>,
    step: Option<Node>,
) -> Result<Node, Memory>
    ensures { IfOk result (λ n. n ≡ node k.Slice [] from to (low ∷ build.slice_kids from (reading.found high) (reading.found step))) }
{
    let kids = three(
        alloc,
        low,
        or_absent(alloc, from, high),
        or_absent(alloc, from, step),
    )?;
    Ok(over(alloc, Kind::Slice, from, to, kids))
}

/// A lambda, whose list of parameters may be empty.
pub fn lambda_of(
    alloc: Global,
    from: u32,
    to: u32,
    params: Option<Node>,
    value: Node,
) -> Result<Node, Memory>
    ensures { IfOk result (λ n. n ≡ node k.Lambda [] from to (reading.lambda_kids from params value)) }
{
    let kids = match params {
        Some(list) => two(alloc, list, value)?,
        None => two(alloc, empty_list(alloc, from), value)?,
    };
    Ok(over(alloc, Kind::Lambda, from, to, kids))
}

//! What may stand next behind a front of tokens, and what a token does there.

ghost use Rattle.std.specs.Prelude.{◌≡◌, ◌≤◌, ◌+◌, reverse, IfOk, Some, None};
ghost use Rattle.json_check.specs.declared.nest.Container.{Container as container};
ghost use Rattle.json_check.specs.declared.nest.Move.TheVariants.{Open};
ghost use Rattle.json_check.specs.fronts.Moves as moves;

use json_tree::Word;
use node_tree::{List, MOST_DEEP, Memory};
use std::alloc::Global;

/// How deep a value may stand below the root.
const MAX_DEPTH: u32 = MOST_DEEP - 1;

/// What holds values or members between two brackets.
#[derive(Clone, Copy, Debug, PartialEq, Eq)]
pub enum Container {
    Array,
    Object,
}

/// What may stand next.
#[derive(Clone, Copy, Debug, PartialEq, Eq)]
pub enum Next {
    Value,
    /// The first item of an array, or its end.
    ItemOrEnd,
    /// The name of the first member of an object, or its end.
    NameOrEnd,
    Name,
    Colon,
    /// What follows a value: behind the outermost one nothing does.
    CommaOrEnd,
}

/// What a token does.
#[derive(Clone, Copy, Debug, PartialEq, Eq)]
pub enum Move {
    /// It may not stand there.
    Stop,
    Go(Next),
    Open(Container),
    Close,
}

/// What a token does where a value may stand.
fn value_move(depth: u32, word: Word) -> Move
    ensures value { result ≡ moves.within depth (moves.value_move word) }
    ensures shallow { (c : container) → result ≡ Open c → depth ≤ 499 }
{
    if depth > MAX_DEPTH {
        return Move::Stop;
    }
    match word {
        Word::Str | Word::Number | Word::Const => Move::Go(Next::CommaOrEnd),
        Word::LeftBracket => Move::Open(Container::Array),
        Word::LeftBrace => Move::Open(Container::Object),
        _ => Move::Stop,
    }
}

/// What a token does where a name may stand.
fn name_move(depth: u32, word: Word) -> Move
    ensures { result ≡ moves.within depth (moves.name_move word) }
{
    if depth > MAX_DEPTH {
        return Move::Stop;
    }
    match word {
        Word::Str => Move::Go(Next::Colon),
        _ => Move::Stop,
    }
}

/// What a token does behind a value.
fn comma_move(inside: Option<Container>, word: Word) -> Move
    ensures { result ≡ moves.comma_move inside word }
{
    match (inside, word) {
        (Some(Container::Array), Word::Comma) => Move::Go(Next::Value),
        (Some(Container::Array), Word::RightBracket) => Move::Close,
        (Some(Container::Object), Word::Comma) => Move::Go(Next::Name),
        (Some(Container::Object), Word::RightBrace) => Move::Close,
        _ => Move::Stop,
    }
}

/// What a token does.
fn move_of(next: Next, inside: Option<Container>, depth: u32, word: Word) -> Move
    ensures value { result ≡ moves.move_of next inside depth word }
    ensures shallow { (c : container) → result ≡ Open c → depth ≤ 499 }
{
    match (next, word) {
        (Next::ItemOrEnd, Word::RightBracket) => Move::Close,
        (Next::NameOrEnd, Word::RightBrace) => Move::Close,
        (Next::Colon, Word::Colon) => Move::Go(Next::Value),
        (Next::Value | Next::ItemOrEnd, _) => value_move(depth, word),
        (Next::Name | Next::NameOrEnd, _) => name_move(depth, word),
        (Next::Colon, _) => Move::Stop,
        (Next::CommaOrEnd, _) => comma_move(inside, word),
    }
}

/// How many steps deeper than a container what stands in it is: in an object there are members between.
fn steps_in(container: Container) -> u32
    ensures value { result ≡ moves.steps_in container }
    ensures few { result ≤ 2 }
{
    match container {
        Container::Array => 1,
        Container::Object => 2,
    }
}

fn first_in(container: Container) -> Next
    ensures { result ≡ moves.first_in container }
{
    match container {
        Container::Array => Next::ItemOrEnd,
        Container::Object => Next::NameOrEnd,
    }
}

/// What stands behind a front of tokens: the containers that are open, and how deep a value stands there.
#[derive(Drop)]
pub struct Nest {
    next: Next,
    around: List<Container>,
    depth: u32,
}

impl Nest {
    /// Before the first token.
    pub fn new(alloc: Global) -> Nest
        ensures { moves.standing result ≡ moves.at_first }
    {
        Nest {
            next: Next::Value,
            around: List::new(alloc),
            depth: 1,
        }
    }

    /// The innermost container that is open.
    fn inside(&self) -> Option<Container>
        ensures { result ≡ moves.innermost (reverse self.now.around) }
    {
        self.around.as_slice().last().copied()
    }

    /// Whether a value stands before, and no container is open.
    pub fn is_over(&self) -> bool
        ensures { result ≡ moves.is_over (moves.standing self.now) }
    {
        self.next == Next::CommaOrEnd && self.inside().is_none()
    }

    /// Goes behind one more token, or tells that it may not stand here.
    pub fn take(&mut self, word: Word) -> Result<bool, Memory>
        ensures { IfOk result (λ b. moves.Takes b (moves.behind_token (moves.standing self.old) word) (moves.standing self.new)) }
    {
        match move_of(self.next, self.inside(), self.depth, word) {
            Move::Stop => return Ok(false),
            Move::Go(next) => self.next = next,
            Move::Open(container) => {
                self.around.push(container)?;
                self.depth += steps_in(container);
                self.next = first_in(container);
            }
            Move::Close => {
                let Some(container) = self.around.pop() else {
                    return Ok(false);
                };
                self.depth = self.depth.saturating_sub(steps_in(container));
                self.next = Next::CommaOrEnd;
            }
        }
        Ok(true)
    }
}

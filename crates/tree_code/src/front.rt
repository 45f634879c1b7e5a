//! Bytes that are read from the front.

ghost use Rattle.std.specs.Prelude.{◌≡◌, ℕ, List as list, [], ◌∷◌, ◌++◌, IfOk};
ghost use Rattle.node_tree.specs.Order.{kind_place};
ghost use Rattle.tree_code.specs.Code.{number_code, text_code, span_code, tree_code};
ghost use Rattle.tree_code.specs.Heads.{head_code};
ghost use Rattle.tree_code.specs.Reads.{Reads, Shortens};

use crate::head::Head;
use node_tree::{Kind, List, Memory, Node, Span, Text};
use std::alloc::Global;

/// Bytes that are read from the front: those that are left. `Memory` is also the answer where none of what is asked for stands
/// there.
#[derive(Drop)]
pub struct Front<'b> {
    pub rest: &'b [u8],
}

impl<'b> Front<'b> {
    /// Takes a byte off the front.
    pub fn byte(&mut self) -> Result<u8, Memory>
        ensures read { Reads (λ byte. byte ∷ []) self.old.rest.now result self.new.rest.now }
        ensures shorter { Shortens self.old.rest.now result self.new.rest.now }
    {
        let [first, rest @ ..] = self.rest else {
            return Err(Memory);
        };
        self.rest = rest;
        Ok(*first)
    }

    /// Takes a number off the front.
    pub fn number(&mut self) -> Result<u32, Memory>
        ensures read { Reads number_code self.old.rest.now result self.new.rest.now }
        ensures shorter { Shortens self.old.rest.now result self.new.rest.now }
    {
        let [first, rest @ ..] = self.rest else {
            return Err(Memory);
        };
        if *first < 192 {
            self.rest = rest;
            return Ok(u32::from(*first));
        }
        if *first < 255 {
            let [low, rest @ ..] = rest else {
                return Err(Memory);
            };
            self.rest = rest;
            return Ok(u32::from(*first - 192) * 256 + u32::from(*low));
        }
        let [a, b, c, d, rest @ ..] = rest else {
            return Err(Memory);
        };
        self.rest = rest;
        Ok(u32::from_le_bytes([*a, *b, *c, *d]))
    }

    /// Takes the bytes of a text off the front, which stand behind their number.
    pub fn text(&mut self) -> Result<&'b [u8], Memory>
        ensures read { (text : list ℕ) → (left : list ℕ) → self.old.rest.now ≡ text_code text ++ left →
            IfOk result (λ t. (t.now ≡ text) × (self.new.rest.now ≡ left)) }
        ensures shorter { Shortens self.old.rest.now result self.new.rest.now }
    {
        let len = self.number()? as usize;
        if self.rest.len() < len {
            return Err(Memory);
        }
        let (text, rest) = self.rest.split_at(len);
        self.rest = rest;
        Ok(text)
    }

    // Takes the text of a node off the front.
    fn node_text(&mut self, alloc: Global) -> Result<Text, Memory>
        ensures read { Reads text_code self.old.rest.now result self.new.rest.now }
        ensures shorter { Shortens self.old.rest.now result self.new.rest.now }
    {
        let bytes = self.text()?;
        let Ok(text) = std::str::from_utf8(bytes) else {
            return Err(Memory);
        };
        Text::from_str(alloc, text)
    }

    // Takes a range off the front.
    fn span(&mut self) -> Result<Span, Memory>
        ensures read { Reads span_code self.old.rest.now result self.new.rest.now }
        ensures shorter { Shortens self.old.rest.now result self.new.rest.now }
    {
        let from = self.number()?;
        let to = self.number()?;
        Ok(Span { from, to })
    }

    // Takes the place of a kind off the front.
    fn kind(&mut self) -> Result<Kind, Memory>
        ensures read { Reads (λ kind. kind_place kind ∷ []) self.old.rest.now result self.new.rest.now }
        ensures shorter { Shortens self.old.rest.now result self.new.rest.now }
    {
        let place = self.byte()?;
        match Kind::at_place(place) {
            Some(kind) => Ok(kind),
            None => Err(Memory),
        }
    }

    // Takes off the front what of a node stands before its kids.
    fn head(&mut self, alloc: Global) -> Result<Head, Memory>
        ensures read { Reads head_code self.old.rest.now result self.new.rest.now }
        ensures shorter { Shortens self.old.rest.now result self.new.rest.now }
    {
        let kind = self.kind()?;
        let span = self.span()?;
        let text = self.node_text(alloc)?;
        let kids = self.number()?;
        Ok(Head {
            kind,
            span,
            text,
            kids,
        })
    }

    /// Takes a tree off the front.
    pub fn tree(&mut self, alloc: Global) -> Result<Node, Memory>
        ensures read { Reads tree_code self.old.rest.now result self.new.rest.now }
        ensures shorter { Shortens self.old.rest.now result self.new.rest.now }
    {
        let head = self.head(alloc)?;
        let mut kids = Vec::with_capacity(alloc, head.kids as usize)?;
        for _i in 0..head.kids {
            let kid = self.tree(alloc)?;
            kids.push(kid)?;
        }
        Ok(Node {
            kind: head.kind,
            text: head.text,
            kids: List::from_vec(kids),
            span: head.span,
        })
    }
}

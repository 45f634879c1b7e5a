//! Bytes that are read from the front.

ghost use Rattle.std.specs.Prelude.{◌≡◌};
ghost use Rattle.store_form.specs.Form.{number_bytes, text_bytes, span_bytes, IsNumber, IsText, IsSpan};
ghost use Rattle.store_form.specs.Takes.{Gives, Finds};

use crate::fault::FormFault;
use node_tree::{Span, Text};
use std::alloc::Global;

/// Bytes that are read from the front: those that are left.
#[derive(Drop)]
pub struct Front<'b> {
    pub rest: &'b [u8],
}

impl Front<'_> {
    /// Takes a number off the front.
    #[tactic(auto, unfolding(crate::specs::Form::number_bytes))]
    pub fn number(&mut self) -> Result<u32, FormFault>
        ensures given { Gives IsNumber number_bytes self.old.rest.now result self.new.rest.now }
        ensures found { Finds IsNumber number_bytes self.old.rest.now result self.new.rest.now }
    {
        let [a, b, c, d, rest @ ..] = self.rest else {
            return Err(FormFault::NoForm);
        };
        let number = u32::from_le_bytes([*a, *b, *c, *d]);
        self.rest = rest;
        Ok(number)
    }

    /// Takes a text off the front.
    pub fn text(&mut self, alloc: Global) -> Result<Text, FormFault>
        ensures given { Gives IsText text_bytes self.old.rest.now result self.new.rest.now }
        ensures found { Finds IsText text_bytes self.old.rest.now result self.new.rest.now }
    {
        let len = self.number()? as usize;
        if self.rest.len() < len {
            return Err(FormFault::NoForm);
        }
        let (front, rest) = self.rest.split_at(len);
        let Ok(text) = std::str::from_utf8(front) else {
            return Err(FormFault::NoForm);
        };
        let text = Text::from_str(alloc, text)?;
        self.rest = rest;
        Ok(text)
    }

    /// Takes a range off the front.
    pub fn span(&mut self) -> Result<Span, FormFault>
        ensures given { Gives IsSpan span_bytes self.old.rest.now result self.new.rest.now }
        ensures found { Finds IsSpan span_bytes self.old.rest.now result self.new.rest.now }
    {
        let from = self.number()?;
        let to = self.number()?;
        Ok(Span { from, to })
    }
}

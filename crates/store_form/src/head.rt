//! What of a node stands before its kids.

ghost use Rattle.std.specs.Prelude.{◌≡◌, MatchOption};
ghost use Rattle.node_tree.specs.declared.kind.Kind.{Kind as a_kind};
ghost use Rattle.node_tree.specs.Order.{kind_place};
ghost use Rattle.node_tree.specs.Tree.{no_span};
ghost use Rattle.store_form.specs.Form.{kind_bytes, span_bytes, head_bytes, IsKind, IsHead};
ghost use Rattle.store_form.specs.Takes.{Gives, Finds};

use crate::fault::FormFault;
use crate::front::Front;
use node_tree::{Kind, Span, Text};
use std::alloc::Global;

/// What of a node stands before its kids: all but these, and how many there are.
#[derive(Drop)]
pub struct Head {
    pub kind: Kind,
    pub text: Text,
    pub span: Span,
    pub kids: u32,
}

// The kind at a place. `Id` is none of a content, since it counts as `Name`.
fn kind_at(place: u32) -> Option<Kind>
    ensures { MatchOption result ((k : a_kind) → IsKind k → kind_place k ≡ place → ⊥)
        (λ k. IsKind k × (kind_place k ≡ place)) }
{
    let Ok(place) = u8::try_from(place) else {
        return None;
    };
    let kind = Kind::at_place(place)?;
    if kind.content() != kind {
        return None;
    }
    Some(kind)
}

impl Front<'_> {
    // Takes a kind off the front.
    fn kind(&mut self) -> Result<Kind, FormFault>
        ensures given { Gives IsKind kind_bytes
            self.old.rest.now result self.new.rest.now }
        ensures found { Finds IsKind kind_bytes
            self.old.rest.now result self.new.rest.now }
    {
        let place = self.number()?;
        match kind_at(place) {
            None => Err(FormFault::NoForm),
            Some(kind) => Ok(kind),
        }
    }

    // Takes a range off the front that is nowhere.
    fn no_span(&mut self) -> Result<Span, FormFault>
        ensures given { Gives (λ s. s ≡ no_span) span_bytes self.old.rest.now result self.new.rest.now }
        ensures found { Finds (λ s. s ≡ no_span) span_bytes self.old.rest.now result self.new.rest.now }
    {
        let span = self.span()?;
        if span.from != 0 || span.to != 0 {
            return Err(FormFault::NoForm);
        }
        Ok(span)
    }

    /// Takes off the front what of a node stands before its kids.
    pub fn head(&mut self, alloc: Global) -> Result<Head, FormFault>
        ensures given { Gives IsHead head_bytes self.old.rest.now result self.new.rest.now }
        ensures found { Finds IsHead head_bytes self.old.rest.now result self.new.rest.now }
    {
        let kind = self.kind()?;
        let text = self.text(alloc)?;
        let span = self.no_span()?;
        let kids = self.number()?;
        Ok(Head {
            kind,
            text,
            span,
            kids,
        })
    }
}

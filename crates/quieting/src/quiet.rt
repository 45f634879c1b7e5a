//! Which comments quiet, and what.

ghost use Rattle.std.specs.Prelude.{◌≡◌, ◌≤◌, length, All, IfOk};
ghost use Rattle.node_tree.specs.declared.span.Span.{Span as a_span};
ghost use Rattle.node_tree.specs.Span.{LiesIn};
ghost use Rattle.node_tree.specs.Places.{lines_before};
ghost use Rattle.quieting.specs.Quieting as spec;

use crate::comment::{content_of, past_word};
use crate::ids::ids_in;
use crate::words::begins_gap;
use node_tree::{List, MOST_BYTES, Memory, Places, Span, Text};
use std::alloc::Global;

/// What a comment quiets on its line and on the next: all rules, or those of these ids.
#[derive(Drop)]
pub struct Quiet {
    pub line: u32,
    pub all: bool,
    pub ids: List<Text>,
}

// What a comment on that line quiets, by what follows its word.
fn said(alloc: Global, line: u32, rest: &str) -> Result<Option<Quiet>, Memory>
    ensures { IfOk result (λ quiet. quiet ≡ spec.said line rest.now) }
{
    let bytes = rest.as_bytes();
    if bytes.is_empty() || begins_gap(bytes) {
        let ids = List::new(alloc);
        return Ok(Some(Quiet {
            line,
            all: true,
            ids,
        }));
    }
    if bytes[0] != b':' {
        return Ok(None);
    }
    let ids = ids_in(alloc, &rest[1..])?;
    Ok(Some(Quiet {
        line,
        all: false,
        ids,
    }))
}

// What the comment at that range of a text quiets.
fn quiet_of(
    alloc: Global,
    text: &str,
    places: &Places<'_>,
    comment: Span,
) -> Result<Option<Quiet>, Memory>
    requires lies { LiesIn text.now comment }
    requires places { places.now ≡ text.now }
    ensures { IfOk result (λ quiet. quiet ≡ spec.quiet_of text.now comment) }
{
    let line = places.place(comment.from).line;
    let content = content_of(&text[comment.from as usize..comment.to as usize]);
    match past_word(content) {
        None => Ok(None),
        Some(rest) => said(alloc, line, rest),
    }
}

/// What the comments at those ranges of a text quiet, in order; those that quiet nothing count for nothing.
pub fn quiets(alloc: Global, text: &str, comments: &List<Span>) -> Result<List<Quiet>, Memory>
    requires small { length text.now ≤ MOST_BYTES }
    requires lie { All (λ (s : a_span). LiesIn text.now s) comments.now }
    ensures { IfOk result (λ quiets. quiets ≡ spec.quiets_of text.now comments.now) }
{
    let comments = comments.as_slice();
    let places = Places::of(alloc, text.as_bytes())?;
    let mut quiets = List::new(alloc);
    for comment in comments {
        let Some(quiet) = quiet_of(alloc, text, &places, *comment)? else {
            continue;
        };
        quiets.push(quiet)?;
    }
    Ok(quiets)
}

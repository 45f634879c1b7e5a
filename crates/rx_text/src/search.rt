//! Searches with a compiled regular expression.

ghost use Rattle.std.specs.Prelude.{◌≡◌, ◌<◌, ◌^◌, ◌++◌, [], ◌∷◌, All, length, IfOk, OnOk};
ghost use Rattle.node_tree.specs.Span.{LiesIn};
ghost use Rattle.regex.specs.Strings.{regex_pattern, match_span, match_haystack};
ghost use Rattle.rx_text.specs.Searches.{spans_of, starts, with_bytes};

use node_tree::{List, Memory, Span};
use regex::{Match, Regex};
use std::alloc::Global;

// Adds the range of a match, unless it is empty.
fn push_match(spans: &mut List<Span>, found: &Match<'_>) -> Result<(), Memory>
    requires { length (match_haystack found.now) < 2 ^ 32 }
    ensures adds { OnOk result (spans.new ≡ spans.old ++ with_bytes (match_span found.now ∷ [])) }
    ensures placed { All (LiesIn (match_haystack found.now)) (with_bytes (match_span found.now ∷ [])) }
{
    if found.is_empty() {
        return Ok(());
    }
    spans.push(Span {
        from: found.start() as u32,
        to: found.end() as u32,
    })
}

// The ranges of all matches that are not empty.
pub(crate) fn spans_in(alloc: Global, regex: &Regex, text: &str) -> Result<List<Span>, Memory>
    requires { length text.now < 2 ^ 32 }
    ensures found { IfOk result (λ spans. spans ≡ spans_of (regex_pattern regex.now) text.now) }
    ensures placed { IfOk result (All (LiesIn text.now)) }
{
    let mut matcher = regex.matcher(alloc)?;
    let mut spans = List::new(alloc);
    for found in matcher.find_iter(text) {
        push_match(&mut spans, &found)?;
    }
    Ok(spans)
}

// Whether the first match begins where the text does.
pub(crate) fn starts(alloc: Global, regex: &Regex, text: &str) -> Result<bool, Memory>
    ensures { IfOk result (λ found. found ≡ starts (regex_pattern regex.now) text.now) }
{
    let mut matcher = regex.matcher(alloc)?;
    match matcher.find(text) {
        Some(found) => Ok(found.start() == 0),
        None => Ok(false),
    }
}

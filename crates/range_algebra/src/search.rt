//! What the regular expressions of a rule find.

ghost use Rattle.std.specs.Prelude.{◌≡◌, All, map, None, IfOk, IfErr};
ghost use Rattle.meta_bind.specs.declared.bound.Bound.{Bound as bound};
ghost use Rattle.meta_bind.specs.Places.{EndsLieIn};
ghost use Rattle.range_algebra.specs.Trees.{regex};
ghost use Rattle.range_algebra.specs.Regexes.{unbound as with_nothing, AreMatches, matches_bound};
ghost use Rattle.range_algebra.specs.Parts.{IsSetOf};
ghost use Rattle.member_join.specs.Limits.{IsFaultFrom};
ghost use Rattle.range_algebra.specs.Crowds.{Over};

use crate::scene::Scene;
use member_join::{EvalFault, limited};
use meta_bind::Trail;
use meta_filter::holds_regex;
use node_tree::{Memory, Span};
use sorted_sets::Member;
use std::alloc::Global;
use std::str;

// The ranges with nothing bound.
fn unbound<'t>(alloc: Global, ranges: &[Span]) -> Result<Vec<Member<'t>>, Memory>
    ensures { IfOk result (λ v. v.items ≡ map with_nothing ranges.now) }
{
    let mut members = Vec::new(alloc);
    for range in ranges {
        members.push((*range, Trail::new(alloc)))?;
    }
    Ok(members)
}

/// The matches of the regular expression with that number in the file, in order, with nothing bound. One that isn't there has
/// none.
pub fn matches_of<'t>(
    alloc: Global,
    scene: Scene<'t>,
    number: u32,
) -> Result<Vec<Member<'t>>, Memory>
    ensures { IfOk result (λ v. AreMatches scene.entry.rx.now scene.entry.view.now.bytes number v.items) }
{
    let Some(rx) = scene.rx.get(number as usize) else {
        return Ok(Vec::new(alloc));
    };
    let Ok(text) = str::from_utf8(scene.view.bytes.as_slice()) else {
        unreachable!()
    };
    let ranges = rx.share()?.all(text)?;
    unbound(alloc, ranges.as_slice())
}

/// The members of the regular expression with that number: its matches, unless there are more than 10,000.
pub fn regex_members<'t>(
    alloc: Global,
    scene: Scene<'t>,
    number: u32,
) -> Result<Vec<Member<'t>>, EvalFault>
    ensures exact { IfOk result (λ v. IsSetOf scene.entry.leaves.now scene.entry.rx.now scene.entry.view.now.bytes (regex number) v.items) }
    ensures few { IfOk result (λ _. Over scene.entry.leaves.now scene.entry.rx.now scene.entry.view.now.bytes (regex number) None) }
    ensures crowded { IfErr result (IsFaultFrom (Over scene.entry.leaves.now scene.entry.rx.now scene.entry.view.now.bytes (regex number))) }
{
    limited(alloc, matches_of(alloc, scene, number)?)
}

/// Whether the first match of the regular expression with that number in what the name is bound to begins where that begins.
pub fn matches_bound<'t>(
    scene: Scene<'t>,
    name: &str,
    number: u32,
    trail: &Trail<'t>,
) -> Result<bool, Memory>
    requires placed { All (λ (b : bound). EndsLieIn scene.view.now.bytes b.span) trail.now }
    ensures { IfOk result (λ y. y ≡ matches_bound scene.entry.rx.now scene.entry.view.now.bytes number name.now trail.now) }
{
    let Some(rx) = scene.rx.get(number as usize) else {
        return Ok(false);
    };
    let bytes = scene.view.bytes.as_slice();
    holds_regex(&mut rx.share()?, &trail.keep()?, name, bytes)
}

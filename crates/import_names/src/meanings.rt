//! What names stand for.

ghost use Rattle.std.specs.Prelude.{◌≡◌, ◌≤◌, length, IfOk};
ghost use Rattle.import_names.specs.Claims as spec;
ghost use Rattle.import_names.specs.Ordered.{AreInOrder, is_before, is_through, Parts};
ghost use Rattle.import_names.specs.Telling.{tells as spec_tells};

use crate::claim::Claim;
use node_tree::{Memory, Twin, Written};
use std::alloc::Global;

/// What is said of names, in order of name.
pub fn in_order<'t>(mut claims: Vec<Claim<'t>>) -> Result<Vec<Claim<'t>>, Memory>
    ensures ordered { IfOk result (λ sorted. AreInOrder sorted.items) }
    ensures same { IfOk result (λ sorted. spec.meaning sorted.items ≡ spec.meaning claims.entry.items) }
{
    claims.sort_by(|a, b| a.name.as_str().cmp(b.name.as_str()))?;
    Ok(claims)
}

// How much is said of names before this one.
fn count_before(claims: &[Claim<'_>], name: &str) -> usize
    requires { AreInOrder claims.now }
    ensures within { result ≤ length claims.now }
    ensures parts { Parts (is_before name.now) claims.now result }
{
    claims.partition_point(|claim| claim.name.as_str() < name)
}

// How much is said of this name and of those before it.
fn count_through(claims: &[Claim<'_>], name: &str) -> usize
    requires { AreInOrder claims.now }
    ensures within { result ≤ length claims.now }
    ensures parts { Parts (is_through name.now) claims.now result }
{
    claims.partition_point(|claim| claim.name.as_str() <= name)
}

// What is said of a name.
fn said_of<'c, 't>(claims: &'c [Claim<'t>], name: &str) -> &'c [Claim<'t>]
    requires { AreInOrder claims.now }
    ensures { result.now ≡ spec.said_of name.now claims.now }
{
    let from = count_before(claims, name);
    let to = count_through(claims, name);
    &claims[from..to]
}

/// The parts of the dotted name for which a name stands, none where it stands for no other.
pub fn meaning<'c, 't>(claims: &'c [Claim<'t>], name: &str) -> &'c [Written<'t>]
    requires { AreInOrder claims.now }
    ensures { result.now ≡ spec.meaning claims.now name.now }
{
    let said = said_of(claims, name);
    if said.len() == 1 {
        return said[0].parts.as_slice();
    }
    &[]
}

// Whether the claim says that its name stands for another, and no other claim is made of that.
fn tells(claims: &[Claim<'_>], claim: &Claim<'_>) -> bool
    requires { AreInOrder claims.now }
    ensures { result ≡ spec_tells claims.now claim.now }
{
    if claim.parts.is_empty() {
        return false;
    }
    !meaning(claims, claim.name.as_str()).is_empty()
}

/// The claims by which a name stands for another, in order of name. Most claims are of names that stand for none, and a name is
/// looked up faster among few.
pub fn telling<'t>(alloc: Global, claims: &[Claim<'t>]) -> Result<Vec<Claim<'t>>, Memory>
    requires { AreInOrder claims.now }
    ensures ordered { IfOk result (λ few. AreInOrder few.items) }
    ensures same { IfOk result (λ few. spec.meaning few.items ≡ spec.meaning claims.now) }
{
    let mut few = Vec::new(alloc);
    for claim in claims {
        if tells(claims, claim) {
            few.push(claim.copy()?)?;
        }
    }
    Ok(few)
}

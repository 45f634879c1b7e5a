//! What places of a file say of names.

ghost use Rattle.std.specs.Prelude.{IsTrue};
ghost use Rattle.import_names.specs.Itself.{IsItself, AllThemselves};

use node_tree::{List, Memory, Twin, Written};

/// What a place of a file says of a name: the parts of the dotted name for which it stands there, none where it stands for no
/// other.
#[derive(Drop)]
pub struct Claim<'t> {
    pub name: Written<'t>,
    pub parts: List<Written<'t>>,
}

impl<'t> Twin for Claim<'t> {
    fn copy(&self) -> Result<Claim<'t>, Memory> {
        let mut parts = List::new(self.parts.alloc());
        for part in self.parts.as_slice() {
            parts.push(Written::new(part.as_str()))?;
        }
        let name = Written::new(self.name.as_str());
        Ok(Claim { name, parts })
    }
}

// Whether by what is said of it the name stands for no other than itself.
fn is_itself(claim: &Claim<'_>) -> bool
    ensures { IsTrue result → IsItself claim.now.name claim.now.parts }
{
    let parts = claim.parts.as_slice();
    if parts.is_empty() {
        return true;
    }
    if parts.len() > 1 {
        return false;
    }
    parts[0].as_str() == claim.name.as_str()
}

/// Whether that holds of each name of which something is said.
pub fn are_themselves(claims: &[Claim<'_>]) -> bool
    ensures { IsTrue result → AllThemselves claims.now }
{
    for claim in claims {
        if !is_itself(claim) {
            return false;
        }
    }
    true
}

//! What patterns have in the parts of files, kept from one scan to the next.
//!
//! A pair is a path, a piece of the file there, and a pattern. The matcher is called once for each pair that is needed and not
//! kept. So after an edit the steps are those of the pieces that the edit changed. `KeptSearch` searches a file so.
#![tactic(auto)]

mod asked;
mod found;
mod kept;
mod leaf;
mod matching;
mod opening;
mod part;
mod search;

pub use asked::AskedPattern;
pub use kept::KeptLeaves;
pub use leaf::{KeptLeaf, KeptPairs, OpenLeaves};
pub use part::ReadyPart;
pub use search::KeptSearch;

//! Names of a piece.

ghost use Rattle.std.specs.Prelude.{◌≡◌};
ghost use Rattle.node_tree.specs.KnownNames.{AreInOrder};

use node_tree::{Known, List, Memory, Twin};
use std::marker::Model;

/// Names that are known to hold a literal, in order of number, each once. Contracts see the list.
#[derive(Drop)]
pub struct KnownNames {
    names: List<Known>,
}

impl Model for KnownNames {
    ghost use Rattle.std.specs.Prelude.{List as list};
    ghost use Rattle.std.specs.Coded.{coded_list};
    ghost use Rattle.node_tree.specs.declared.known.Known.{Known as known_value};
    ghost use Rattle.node_tree.specs.contracts.known.Known as knowns;
    ghost use Rattle.node_tree.specs.KnownNames.{AreInOrder as in_order};

    ghost Value = { list known_value };

    ghost coded = { coded_list knowns.the_row.coded };

    ghost view = { λ k. k.names };

    ghost invariant = { λ k. in_order k.names };
}

impl KnownNames {
    /// These names.
    pub fn of(names: List<Known>) -> KnownNames
        requires { AreInOrder names }
        ensures { result ≡ names }
    {
        KnownNames { names }
    }

    /// The names in order.
    pub fn as_slice(&self) -> &[Known]
        ensures names { result.now ≡ self.now }
        ensures in_order { AreInOrder result.now }
    {
        self.names.as_slice()
    }
}

impl Twin for KnownNames {
    fn copy(&self) -> Result<KnownNames, Memory> {
        Ok(KnownNames {
            names: self.names.copy()?,
        })
    }
}

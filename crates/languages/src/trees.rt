//! The trees of the languages, and the names that are known in them.

ghost use Rattle.languages.specs.Trees.{IsTree, AreKnown};

use crate::patterns::Languages;
use c_unit::read_unit;
use code_reader::TreeReader;
use const_prop::constants;
use json_tree::read_json;
use node_tree::{Known, Lang, List, Memory, Mode, Node, ReadFault};
use py_stmt::read_module;
use std::alloc::Global;

impl TreeReader for Languages {
    ghost spells = { λ _. IsTree };

    ghost knows = { λ _. AreKnown };

    fn read_tree(&self, alloc: Global, lang: Lang, text: &str) -> Result<Node, ReadFault> {
        match lang {
            Lang::Json => read_json(alloc, text, Mode::Text),
            Lang::Python => read_module(alloc, text),
            Lang::C => read_unit(alloc, text),
            Lang::Regex => Err(ReadFault::NoTree),
        }
    }

    fn known_names(&self, alloc: Global, lang: Lang, tree: &Node) -> Result<List<Known>, Memory> {
        match lang {
            Lang::Json | Lang::Regex => Ok(List::new(alloc)),
            Lang::Python | Lang::C => constants(alloc, tree),
        }
    }
}

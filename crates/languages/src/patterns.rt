//! The patterns of the languages.

ghost use Rattle.pattern_read.specs.Patterns.{IsPatternOf};

use code_reader::{PatternFault, PatternReader};
use node_tree::{Lang, Pattern};
use std::alloc::Global;

/// What reads JSON, Python and C. A text in any other language writes no pattern.
#[derive(Clone, Copy, Debug, PartialEq, Eq)]
pub struct Languages;

impl PatternReader for Languages {
    ghost writes = { λ _ lang text p. IsPatternOf lang text p };

    fn read_pattern(&self, alloc: Global, lang: Lang, text: &str) -> Result<Pattern, PatternFault> {
        pattern_read::read_pattern(alloc, lang, text)
    }
}

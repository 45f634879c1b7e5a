//! Regular expressions.

ghost use Rattle.std.specs.Prelude.{◌≡◌, ◌<◌, ◌^◌, All, length, IfOk};
ghost use Rattle.std.specs.Str.{IsUtf8};
ghost use Rattle.node_tree.specs.Span.{LiesIn};
ghost use Rattle.rx_text.specs.Searches.{all_matches, matches_at_start, FollowFrom};

use crate::patterns::BuildFault;
use crate::search;
use node_tree::{List, Memory, Span};
use regex::{Error, Regex};
use std::alloc::Global;
use std::marker::Model;
use std::rc::Rc;

/// A regular expression, which contracts see as the text that it was built from. Its shares have one compiled form.
#[derive(Drop)]
pub struct Rx {
    compiled: Rc<Regex>,
    alloc: Global,
}

impl Model for Rx {
    ghost use Rattle.std.specs.Prelude.{◌≡◌, ℕ, List};
    ghost use Rattle.regex.specs.Patterns.{default_config};
    ghost use Rattle.regex.specs.Strings.{regex_source, regex_config, IsReadFromSource};

    ghost Value = { List ℕ };

    ghost view = { λ rx. regex_source rx.compiled.value };

    ghost invariant = { λ rx. (regex_config rx.compiled.value ≡ default_config) × IsReadFromSource rx.compiled.value };
}

impl Rx {
    // The regular expression of a text. It is Refused where `regex` names another cause than want of memory.
    pub(crate) fn compile(alloc: Global, text: &str) -> Result<Rx, BuildFault>
        ensures { IfOk result (λ rx. rx ≡ text.now) }
    {
        let regex = match Regex::new(alloc, text) {
            Ok(regex) => regex,
            Err(Error::OutOfMemory) => return Err(BuildFault::Memory),
            Err(_) => return Err(BuildFault::Refused),
        };
        match Rc::new(alloc, regex) {
            Ok(compiled) => Ok(Rx { compiled, alloc }),
            Err(_) => Err(BuildFault::Memory),
        }
    }

    /// The ranges of the matches in a text of fewer than 2^32 bytes, one after another from the left as `regex` iterates
    /// them, without the empty ones.
    pub fn all(&mut self, text: &str) -> Result<List<Span>, Memory>
        requires { length text.now < 2 ^ 32 }
        ensures found { IfOk result (λ spans. spans ≡ all_matches self.old text.now) }
        ensures placed { IfOk result (All (LiesIn text.now)) }
        ensures ordered { IfOk result (FollowFrom 0) }
        ensures same { self.new ≡ self.old }
    {
        search::spans_in(self.alloc, self.compiled.as_ref(), text)
    }

    /// Whether the first match in a text begins where the text does.
    pub fn at_start(&mut self, text: &str) -> Result<bool, Memory>
        ensures found { IfOk result (λ found. found ≡ matches_at_start self.old text.now) }
        ensures same { self.new ≡ self.old }
    {
        search::starts(self.alloc, self.compiled.as_ref(), text)
    }

    /// Tells proofs that the matches in a text cut no character of it. It searches nothing.
    pub fn keeps_characters(&self, text: &[u8])
        requires { ∥ IsUtf8 text.now ∥₁ }
        ensures { All (LiesIn text.now) (all_matches self.now text.now) }
    {
        let _compiled = self.compiled.as_ref();
        let _len = text.len();
    }

    /// A further regular expression of the same text. It is not compiled again.
    pub fn share(&self) -> Result<Rx, Memory>
        ensures { IfOk result (λ rx. rx ≡ self.now) }
    {
        Ok(Rx {
            compiled: self.compiled.clone()?,
            alloc: self.alloc,
        })
    }
}

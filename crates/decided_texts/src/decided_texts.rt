//! Texts that a builder was asked for.

ghost use Rattle.std.specs.Prelude.{◌≡◌, ◌++◌, ◌∷◌, [], ℕ, List as list, Some, None, true, cond, if◌then◌else◌, IfOk, OnOk, OnErr};
ghost use Rattle.std.specs.List.{list_any};
ghost use Rattle.std.specs.Option.{option_copied};
ghost use Rattle.std.specs.Str.{bytes_eq};
ghost use Rattle.std.specs.BTreeMap.{get_by_text};
ghost use Rattle.decided_texts.specs.Refused.{gained};
ghost use Rattle.decided_texts.specs.Decided.{is_refused, is_decided, AreDecided, came_to, AsksFor, built_now};
ghost use Rattle.decided_texts.specs.Deciding.{Decides, TakesAll};
ghost use Rattle.decided_texts.specs.Asking.{Settles};

use node_tree::{List, Memory, Text};
use rx_text::{BuildFault, Patterns, Rx};
use std::alloc::Global;
use std::collections::BTreeMap;
use std::marker::Model;
use std::string::String;

// Puts the text at the end of the list, and what it came to into the map.
fn hold(
    by_text: &mut BTreeMap<String, Option<Rx>>,
    texts: &mut List<Text>,
    text: &str,
    rx: Option<Rx>,
) -> Result<(), Memory>
    ensures listed { OnOk result (texts.new ≡ texts.old ++ text.now ∷ []) }
    ensures held { OnOk result ((key : list ℕ) → get_by_text by_text.new key ≡ cond (bytes_eq text.now key) (Some rx) (get_by_text by_text.old key)) }
    ensures unlisted { OnErr result (texts.new ≡ texts.old) }
    ensures unheld { OnErr result (by_text.new.entries ≡ by_text.old.entries) }
{
    let alloc = texts.alloc();
    let key = String::from_str(alloc, text)?;
    let copy = Text::from_str(alloc, text)?;
    texts.push(copy)?;
    match by_text.insert(key, rx) {
        Ok(_) => Ok(()),
        Err(_) => {
            texts.pop();
            Err(Memory)
        }
    }
}

/// Texts that builders were asked for, each with its regular expression, or with none where it was refused. Contracts see which
/// were refused and which were built, each once and in the order in which that was decided.
#[derive(Drop)]
pub struct DecidedTexts {
    by_text: BTreeMap<String, Option<Rx>>,
    refused: List<Text>,
    built: List<Text>,
}

impl Model for DecidedTexts {
    ghost use Rattle.decided_texts.specs.Decided.{Decisions};
    ghost use Rattle.decided_texts.specs.Kept.{IsKept};

    ghost Value = { Decisions };

    ghost view = { λ d. record { refused = d.refused; built = d.built } };

    ghost invariant = { λ d. IsKept d.by_text d.refused d.built };
}

impl DecidedTexts {
    /// No texts, which takes no memory.
    pub fn new(alloc: Global) -> DecidedTexts
        ensures { result ≡ record { refused = []; built = [] } }
    {
        DecidedTexts {
            by_text: BTreeMap::new(alloc),
            refused: List::new(alloc),
            built: List::new(alloc),
        }
    }

    /// Asks the builder for the regular expression of the text, unless the text is decided. Where it is built or refused now, it
    /// comes to the end of those texts. Whatever the answer, the builder's list gains this text or nothing. Unless memory runs out
    /// the builder is asked once, and not at all for a decided text.
    pub fn decide<P: Patterns>(&mut self, text: &str, patterns: &mut P) -> Result<(), Memory>
        ensures grows { AsksFor self.old text.now (P.refusals patterns.old) (P.refusals patterns.new) }
        ensures refused { OnOk result (self.new.refused ≡ self.old.refused ++ gained (P.refusals patterns.old) (P.refusals patterns.new)) }
        ensures built { OnOk result (self.new.built ≡ self.old.built ++ built_now self.old text.now (gained (P.refusals patterns.old) (P.refusals patterns.new))) }
        ensures decided { OnOk result (is_decided self.new text.now ≡ true) }
        ensures settled { OnOk result (Settles (text.now ∷ []) self.old self.new (P.asked patterns.old) (P.asked patterns.new)) }
        ensures same { OnErr result (self.new ≡ self.old) }
    {
        if self.by_text.contains_key(text) {
            return Ok(());
        }
        match patterns.build(text) {
            Ok(rx) => hold(&mut self.by_text, &mut self.built, text, Some(rx)),
            Err(BuildFault::Refused) => hold(&mut self.by_text, &mut self.refused, text, None),
            Err(BuildFault::Memory) => Err(Memory),
        }
    }

    /// Asks the builder for the regular expressions of those of the texts that are not decided, in order and for each once.
    pub fn decide_all<P: Patterns>(
        &mut self,
        texts: &[Text],
        patterns: &mut P,
    ) -> Result<(), Memory>
        ensures begun { Decides texts.now self.old self.new (P.refusals patterns.old) (P.refusals patterns.new) }
        ensures refused { OnOk result (TakesAll self.old self.new (P.refusals patterns.old) (P.refusals patterns.new)) }
        ensures decided { OnOk result (AreDecided self.new texts.now) }
        ensures settled { OnOk result (Settles texts.now self.old self.new (P.asked patterns.old) (P.asked patterns.new)) }
    {
        for text in texts {
            self.decide(text.as_str(), patterns)?;
        }
        Ok(())
    }

    /// The regular expression of a text that is decided. There is none exactly where the text was refused.
    pub fn expression(&self, text: &str) -> Option<&Rx>
        ensures came { is_decided self.now text.now ≡ true → option_copied result ≡ came_to self.now.refused text.now }
        ensures built { is_refused self.now.built text.now ≡ true → option_copied result ≡ Some text.now }
    {
        match self.by_text.get(text) {
            Some(Some(rx)) => Some(rx),
            _ => None,
        }
    }
    /// Further regular expressions of the texts, or none where one of them was refused.
    pub fn expressions(&self, texts: &[Text]) -> Result<Option<List<Rx>>, Memory>
        ensures { AreDecided self.now texts.now → IfOk result (λ rx. rx ≡ (if list_any (is_refused self.now.refused) texts.now then None else Some texts.now)) }
    {
        let mut expressions = List::new(self.refused.alloc());
        for text in texts {
            let Some(rx) = self.expression(text.as_str()) else {
                return Ok(None);
            };
            expressions.push(rx.share()?)?;
        }
        Ok(Some(expressions))
    }
}

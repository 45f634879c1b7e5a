//! A file that is searched by the leaves that are kept.

ghost use Rattle.std.specs.Prelude.{◌≡◌, IfOk};
ghost use Rattle.file_parts.specs.Parts.{ArePartsOf};
ghost use Rattle.kept_leaves.specs.Asking.{AsksKept, path_of, kept_by};
ghost use Rattle.kept_leaves.specs.Kept.{map_of};
ghost use Rattle.kept_leaves.specs.Opened.{SeesSame};

use crate::kept::KeptLeaves;
use crate::leaf::{KeptPairs, OpenLeaves};
use crate::matching::ask;
use crate::opening::open_parts;
use crate::part::ReadyPart;
use file_match::ReadyFile;
use file_parts::Parts;
use file_search::FileSearch;
use node_tree::{Memory, Pattern, Steps, Text};
use open_store::OpenStore;
use std::alloc::Global;
use std::marker::Model;
use std::sync::ledger::Ledger;
use tree_match::Leaf;

/// A search of one file that answers by what is kept, and keeps what it matches. What is kept of the file's pieces is in hand, so a
/// question costs no search for the path and the pieces. The file is ready, so a pattern that needs a word which it lacks is matched in
/// no piece of the file as it is written. Contracts see the file with its parts, and what is kept.
#[derive(Drop)]
pub struct KeptSearch<'p> {
    leaves: OpenLeaves,
    file: &'p Parts<'p>,
    ready: ReadyFile<'p>,
    parts: Vec<ReadyPart<'p>>,
    places: Vec<usize>,
}

impl<'p> Model for KeptSearch<'p> {
    ghost use Rattle.file_parts.specs.Parts.{ArePartsOf};
    ghost use Rattle.kept_leaves.specs.Opened.{IsOpenLeaves, ArePlacesOf, pieces_in};
    ghost use Rattle.kept_leaves.specs.Asking.{Search};
    ghost use Rattle.kept_leaves.specs.contracts.leaf.OpenLeaves as open_rows;
    ghost use Rattle.node_tree.specs.contracts.view.FileView as file_views;
    ghost use Rattle.piece_form.specs.contracts.piece.Placed as placeds;
    ghost use Rattle.std.specs.Coded.{codes};
    ghost use Rattle.std.specs.Prelude.{◌≡◌};

    ghost Value = { Search };

    ghost coded = { Prim.hlevel (codes, file_views.the_row.coded, placeds.the_row.coded, open_rows.the_row.coded) };

    ghost view = { λ s. record { leaves = s.leaves; view = s.file.now; parts = s.parts.items } };

    ghost invariant = { λ s. IsOpenLeaves s.leaves × (s.ready ≡ s.file.now) × ArePartsOf s.file.now s.parts.items × ArePlacesOf (pieces_in s.leaves) s.places.items s.parts.items };
}

impl<'p> KeptSearch<'p> {
    /// A search of the file at the path by what is kept.
    pub fn of(
        alloc: Global,
        kept: KeptLeaves,
        path: &str,
        file: &'p Parts<'p>,
    ) -> Result<KeptSearch<'p>, Memory>
        ensures kept { IfOk result (λ search. SeesSame (map_of kept) (kept_by search)) }
        ensures path { IfOk result (λ search. path_of search ≡ path.now) }
        ensures file { IfOk result (λ search. search.view ≡ file.now) }
        ensures parts { IfOk result (λ search. ArePartsOf file.now search.parts) }
    {
        let mut leaves = OpenLeaves {
            store: OpenStore::of(alloc, kept.pairs.store, Text::from_str(alloc, path)?),
        };
        let (parts, places) = open_parts(alloc, &mut leaves, file)?;
        let ready = ReadyFile::of(alloc, file.view())?;
        Ok(KeptSearch {
            leaves,
            file,
            ready,
            parts,
            places,
        })
    }

    /// What is kept, also of the file. The search ends.
    pub fn into_kept(self) -> Result<KeptLeaves, Memory>
        ensures { IfOk result (λ kept. SeesSame (kept_by self.entry) (map_of kept)) }
    {
        let store = self.leaves.store.close()?;
        Ok(KeptLeaves {
            pairs: KeptPairs { store },
        })
    }
}

impl<'p> FileSearch for KeptSearch<'p> {
    ghost file = { λ s. s.view };

    ghost asks = { AsksKept };

    fn leaf<L: Ledger>(
        &mut self,
        alloc: Global,
        pattern: &Pattern,
        steps: &mut Steps<L>,
    ) -> Result<Leaf, Memory> {
        let absent = !self.ready.may_have(alloc, pattern)?;
        let places = self.places.as_slice();
        ask(
            alloc,
            &mut self.leaves,
            &mut self.parts,
            places,
            pattern,
            absent,
            steps,
        )
    }
}

//! Files that many rules look at.

ghost use Rattle.std.specs.Prelude.{◌≡◌, All, IfOk, IfSome};
ghost use Rattle.tree_match.specs.Placed.{IsLeafPlaced};
ghost use Rattle.taint_judge.specs.Placed.{IsFindingPlaced};
ghost use Rattle.part_judge.specs.Findings.{BodyFinds, findings_of};

use crate::found::Found;
use crate::judging::look;
use node_tree::{FileView, List, Memory};
use rule_form::Body;
use rx_text::Rx;
use std::alloc::Global;
use std::marker::Model;
use taint_judge::{FlowTree, SharedFlow};
use tree_match::Leaf;

/// A file that is lent to many rules. Contracts see the file.
#[derive(Drop)]
pub struct SharedFile<'v> {
    view: &'v FileView,
    flow: SharedFlow<'v>,
}

impl<'v> Model for SharedFile<'v> {
    ghost use Rattle.std.specs.Prelude.{◌≡◌};
    ghost use Rattle.node_tree.specs.declared.view.FileView.{FileView as file_view};
    ghost use Rattle.node_tree.specs.contracts.view.FileView as file_views;

    ghost Value = { file_view };

    ghost coded = { file_views.the_row.coded };

    ghost view = { λ f. f.view.now };

    ghost invariant = { λ f. f.flow ≡ f.view.now.tree };
}

impl<'v> SharedFile<'v> {
    /// A file to be lent.
    pub fn of(view: &'v FileView) -> SharedFile<'v>
        ensures { result ≡ view.now }
    {
        SharedFile {
            view,
            flow: SharedFlow::of(&view.tree),
        }
    }

    /// The file.
    pub fn view(&self) -> &'v FileView
        ensures { result.now ≡ self.now }
    {
        self.view
    }

    /// What it takes to follow data in it, if it was made.
    pub fn flow(&self) -> Option<&FlowTree<'v>>
        ensures { IfSome result (λ tree. tree.now ≡ self.now.tree) }
    {
        self.flow.made()
    }

    /// What a body finds in it.
    pub fn look(
        &mut self,
        alloc: Global,
        body: &Body,
        leaves: &List<Leaf>,
        rx: &mut List<Rx>,
    ) -> Result<Found, Memory>
        requires placed { All (λ leaf. IsLeafPlaced self.old.bytes leaf) leaves.now }
        ensures finds { IfOk result (BodyFinds leaves.now rx.old self.old.bytes self.old.tree body.now) }
        ensures placed { IfOk result (λ found. All (λ finding. IsFindingPlaced self.old.bytes finding) (findings_of found)) }
        ensures kept { self.new ≡ self.old }
        ensures same { rx.new ≡ rx.old }
    {
        look(alloc, self.view, &mut self.flow, body, leaves, rx)
    }
}

//! Notices, and their order.

ghost use Rattle.std.specs.Prelude.{◌≡◌, ◌↔◌, [], ◌∷◌, ◌++◌, List as list, IfOk, OnOk};
ghost use Rattle.node_match.specs.Sets.{Among};
ghost use Rattle.tree_match.specs.Ascending.{IsAscending};
ghost use Rattle.report_form.specs.declared.notice.Notice.{Notice as a_notice};
ghost use Rattle.running_rules.specs.Notes.{notice as a_note, notice_cmp};

use node_tree::{List, Memory, Text};
use report_form::{Notice, NoticeKind};
use sorted_sets::{Ordered, settled};
use std::alloc::Global;
use std::cmp::Ordering;
use std::marker::Model;

/// A notice that stands in the order of notices.
#[derive(Drop)]
pub struct Noted {
    notice: Notice,
}

impl Model for Noted {
    ghost use Rattle.report_form.specs.declared.notice.Notice.{Notice as notice_value};
    ghost use Rattle.report_form.specs.contracts.notice.Notice as notices;

    ghost Value = { notice_value };

    ghost coded = { notices.the_row.coded };

    ghost view = { λ n. n.notice };
}

impl Noted {
    /// That notice.
    pub fn of(notice: Notice) -> Noted
        ensures { result ≡ notice }
    {
        Noted { notice }
    }

    /// The notice.
    pub fn into_notice(self) -> Notice
        ensures { result ≡ self }
    {
        self.notice
    }
}

impl Ordered for Noted {
    ghost use Rattle.running_rules.specs.Notes.{notice_cmp as by_path};
    ghost use Rattle.running_rules.specs.NoteOrder.{notice_total, notice_apart};

    ghost before = { by_path };

    ghost total = { notice_total };

    ghost apart = { notice_apart };

    fn order(&self, other: &Noted) -> Ordering {
        let (a, b) = (&self.notice, &other.notice);
        match a.path.as_str().cmp(b.path.as_str()) {
            Ordering::Less => return Ordering::Less,
            Ordering::Greater => return Ordering::Greater,
            Ordering::Equal => {}
        }
        match a.rule_id.as_str().cmp(b.rule_id.as_str()) {
            Ordering::Less => return Ordering::Less,
            Ordering::Greater => return Ordering::Greater,
            Ordering::Equal => {}
        }
        match a.kind.word().cmp(b.kind.word()) {
            Ordering::Less => Ordering::Less,
            Ordering::Greater => Ordering::Greater,
            Ordering::Equal => a.detail.as_str().cmp(b.detail.as_str()),
        }
    }
}

/// Adds a notice.
pub fn add_notice(
    alloc: Global,
    notices: &mut Vec<Noted>,
    path: &str,
    rule_id: &str,
    kind: NoticeKind,
    detail: &str,
) -> Result<(), Memory>
    ensures { OnOk result (notices.new.items ≡ notices.old.items ++ a_note path.now rule_id.now kind detail.now ∷ []) }
{
    notices.push(Noted::of(Notice {
        path: Text::from_str(alloc, path)?,
        rule_id: Text::from_str(alloc, rule_id)?,
        kind,
        detail: Text::from_str(alloc, detail)?,
    }))?;
    Ok(())
}

// The notices as they stand.
fn listed(alloc: Global, mut notices: Vec<Noted>) -> Result<List<Notice>, Memory>
    ensures { IfOk result (λ list. list ≡ notices.items) }
{
    let mut list = List::new(alloc);
    while let Some(noted) = notices.pop() {
        list.push(noted.into_notice())?;
    }
    list.reverse();
    Ok(list)
}

/// The notices in order, each once.
pub fn in_order(alloc: Global, notices: Vec<Noted>) -> Result<List<Notice>, Memory>
    ensures ordered { IfOk result (λ list. IsAscending notice_cmp list) }
    ensures same { IfOk result (λ list. (n : a_notice) → Among list n ↔ Among notices.items n) }
{
    listed(alloc, settled(alloc, notices)?)
}

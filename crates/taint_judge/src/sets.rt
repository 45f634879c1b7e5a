//! The sets of a rule that follows data.

ghost use Rattle.std.specs.Prelude.{◌≡◌, length, All, None, IfOk, IfErr};
ghost use Rattle.meta_bind.specs.Places.{EndsLieIn};
ghost use Rattle.tree_match.specs.Placed.{IsPlaced, IsLeafPlaced};
ghost use Rattle.taint_judge.specs.declared.list.RuleList.TheVariants as lists;
ghost use Rattle.taint_judge.specs.Lists.{lent, formulas_in, AreEach, OverFormulas, OverList, OverRule, IsCrowdedBy};
ghost use Rattle.taint_judge.specs.Sets.{AreSets};
ghost use Rattle.taint_judge.specs.Gathered.{AreGathered, IsUnion, AreRangesOf};

use crate::fault::FollowFault;
use crate::formulas::{carrying_formulas, lent_formulas};
use crate::gather::{carries_of, places_of, ranges_of, union_of};
use crate::list::RuleList;
use crate::members::members_of_each;
use meta_bind::Binding;
use node_tree::{FileView, List, Memory, Span};
use range_algebra::{EvalFault, MatchSet};
use rule_form::{Formula, TaintRule};
use rx_text::Rx;
use std::alloc::Global;
use taint_flow::TaintSets;
use tree_match::Leaf;

/// What a rule follows in a file: the members of its sinks, in order and each once, and the ranges of all its sets. The range
/// of a sink has the number of its member.
#[derive(Drop)]
pub struct RuleSets {
    pub sinks: List<(Span, Binding)>,
    pub ranges: TaintSets,
}

// The formulas of the list.
fn formulas_of<'t>(
    alloc: Global,
    rule: &'t TaintRule,
    list: RuleList,
) -> Result<Vec<&'t Formula>, Memory>
    ensures { IfOk result (λ v. lent v.items ≡ formulas_in list rule.now) }
{
    match list {
        RuleList::Sources => lent_formulas(alloc, rule.sources.as_slice()),
        RuleList::Sinks => lent_formulas(alloc, rule.sinks.as_slice()),
        RuleList::Sanitizers => lent_formulas(alloc, rule.sanitizers.as_slice()),
        RuleList::Propagators => carrying_formulas(alloc, rule.propagators.as_slice()),
    }
}

// The members of each formula of the list.
fn members_in(
    alloc: Global,
    view: &FileView,
    rule: &TaintRule,
    list: RuleList,
    leaves: &List<Leaf>,
    rx: &mut List<Rx>,
) -> Result<Vec<MatchSet>, FollowFault>
    requires placed { All (λ leaf. IsLeafPlaced view.now.bytes leaf) leaves.now }
    ensures exact { IfOk result (λ v. AreEach leaves.now rx.old view.now.bytes (formulas_in list rule.now) v.items) }
    ensures few { IfOk result (λ _. OverFormulas leaves.now rx.old view.now.bytes (formulas_in list rule.now) None) }
    ensures crowded { IfErr result (IsCrowdedBy (OverList leaves.now rx.old view.now.bytes rule.now list)) }
    ensures placed { IfOk result (λ v. All (All (λ m. IsPlaced view.now.bytes m)) v.items) }
    ensures same { rx.new ≡ rx.old }
{
    let formulas = formulas_of(alloc, rule, list)?;
    match members_of_each(alloc, view, formulas.as_slice(), leaves, rx) {
        Ok(each) => Ok(each),
        Err(EvalFault::Crowded(numbers)) => Err(FollowFault::Crowded(list, numbers)),
        Err(EvalFault::Memory) => Err(FollowFault::Memory),
    }
}

// The members of each formula of each list.
#[derive(Drop)]
struct Gathered {
    sources: Vec<MatchSet>,
    sinks: Vec<MatchSet>,
    sanitizers: Vec<MatchSet>,
    carriers: Vec<MatchSet>,
}

// The members of each formula of the rule. Crowded names the first set that has more than 10,000 members.
fn gather(
    alloc: Global,
    view: &FileView,
    rule: &TaintRule,
    leaves: &List<Leaf>,
    rx: &mut List<Rx>,
) -> Result<Gathered, FollowFault>
    requires placed { All (λ leaf. IsLeafPlaced view.now.bytes leaf) leaves.now }
    ensures exact { IfOk result (λ g. AreGathered leaves.now rx.old view.now.bytes rule.now g) }
    ensures few { IfOk result (λ _. OverRule leaves.now rx.old view.now.bytes rule.now None) }
    ensures crowded { IfErr result (IsCrowdedBy (OverRule leaves.now rx.old view.now.bytes rule.now)) }
    ensures sources { IfOk result (λ g. All (All (λ m. IsPlaced view.now.bytes m)) g.sources.items) }
    ensures sinks { IfOk result (λ g. All (All (λ m. IsPlaced view.now.bytes m)) g.sinks.items) }
    ensures same { rx.new ≡ rx.old }
{
    Ok(Gathered {
        sources: members_in(alloc, view, rule, RuleList::Sources, leaves, rx)?,
        sinks: members_in(alloc, view, rule, RuleList::Sinks, leaves, rx)?,
        sanitizers: members_in(alloc, view, rule, RuleList::Sanitizers, leaves, rx)?,
        carriers: members_in(alloc, view, rule, RuleList::Propagators, leaves, rx)?,
    })
}

// The sets of the rule from the members of each formula.
fn joined(alloc: Global, rule: &TaintRule, gathered: &Gathered) -> Result<RuleSets, Memory>
    requires { length gathered.now.carriers.items ≡ length rule.now.propagators }
    ensures sinks { IfOk result (λ s. IsUnion gathered.now.sinks.items s.sinks) }
    ensures ranges { IfOk result (λ s. AreRangesOf rule.now gathered.now s.sinks s.ranges) }
{
    let sinks = union_of(alloc, gathered.sinks.as_slice())?;
    let ranges = TaintSets {
        sources: ranges_of(alloc, gathered.sources.as_slice())?,
        sinks: places_of(alloc, sinks.as_slice())?,
        sanitizers: ranges_of(alloc, gathered.sanitizers.as_slice())?,
        carries: carries_of(
            alloc,
            rule.propagators.as_slice(),
            gathered.carriers.as_slice(),
        )?,
    };
    Ok(RuleSets { sinks, ranges })
}

/// The sets of the rule. Crowded names the first set that has more than 10,000 members, of the sources, the sinks, the
/// sanitizers and the propagators, in this order.
pub fn sets_of(
    alloc: Global,
    view: &FileView,
    rule: &TaintRule,
    leaves: &List<Leaf>,
    rx: &mut List<Rx>,
) -> Result<RuleSets, FollowFault>
    requires placed { All (λ leaf. IsLeafPlaced view.now.bytes leaf) leaves.now }
    ensures exact { IfOk result (λ s. AreSets leaves.now rx.old view.now.bytes rule.now s.sinks s.ranges) }
    ensures few { IfOk result (λ _. OverRule leaves.now rx.old view.now.bytes rule.now None) }
    ensures crowded { IfErr result (IsCrowdedBy (OverRule leaves.now rx.old view.now.bytes rule.now)) }
    ensures placed { IfOk result (λ s. All (λ m. IsPlaced view.now.bytes m) s.sinks) }
    ensures sources { IfOk result (λ s. All (EndsLieIn view.now.bytes) s.ranges.sources) }
    ensures same { rx.new ≡ rx.old }
{
    let gathered = gather(alloc, view, rule, leaves, rx)?;
    Ok(joined(alloc, rule, &gathered)?)
}

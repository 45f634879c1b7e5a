//! Copies of what was found.

ghost use Rattle.std.specs.Prelude.{◌≡◌, IfOk};

use graph_form::Role;
use meta_bind::Finding;
use node_tree::{List, Memory, Text, Twin};
use report_form::{Notice, Reported};
use std::alloc::Global;

// The same trace.
fn copy_trace(alloc: Global, trace: &[(u32, Role)]) -> Result<List<(u32, Role)>, Memory>
    ensures { IfOk result (λ copy. copy ≡ trace.now) }
{
    let mut copy = List::new(alloc);
    for stop in trace {
        copy.push(*stop)?;
    }
    Ok(copy)
}

// The same fix, if there is one.
fn copy_fix(fix: &Option<Text>) -> Result<Option<Text>, Memory>
    ensures { IfOk result (λ copy. copy ≡ fix.now) }
{
    match fix {
        None => Ok(None),
        Some(fix) => Ok(Some(fix.copy()?)),
    }
}

// The same result.
fn copy_result(alloc: Global, one: &Reported) -> Result<Reported, Memory>
    ensures { IfOk result (λ copy. copy ≡ one.now) }
{
    Ok(Reported {
        path: one.path.copy()?,
        id: one.id.copy()?,
        severity: one.severity,
        message: one.message.copy()?,
        fix: copy_fix(&one.fix)?,
        start: one.start,
        end: one.end,
        finding: Finding {
            span: one.finding.span,
            binding: one.finding.binding.copy()?,
            source: one.finding.source,
        },
        trace: copy_trace(alloc, one.trace.as_slice())?,
    })
}

/// The same results.
pub fn copy_results(alloc: Global, results: &[Reported]) -> Result<List<Reported>, Memory>
    ensures { IfOk result (λ copy. copy ≡ results.now) }
{
    let mut copy = List::new(alloc);
    for one in results {
        copy.push(copy_result(alloc, one)?)?;
    }
    Ok(copy)
}

// The same notice.
fn copy_notice(one: &Notice) -> Result<Notice, Memory>
    ensures { IfOk result (λ copy. copy ≡ one.now) }
{
    Ok(Notice {
        path: one.path.copy()?,
        rule_id: one.rule_id.copy()?,
        kind: one.kind,
        detail: one.detail.copy()?,
    })
}

/// The same notices.
pub fn copy_notices(alloc: Global, notices: &[Notice]) -> Result<List<Notice>, Memory>
    ensures { IfOk result (λ copy. copy ≡ notices.now) }
{
    let mut copy = List::new(alloc);
    for one in notices {
        copy.push(copy_notice(one)?)?;
    }
    Ok(copy)
}

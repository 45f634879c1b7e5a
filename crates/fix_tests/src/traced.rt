//! The lines of reports whose findings have traces.

use finding_json::{FixReport, Report, Reported, fix_text, report_text};
use graph_form::Role;
use meta_bind::{Binding, Bound, Finding};
use node_tree::{List, Memory, Place, Span, Text};
use rule_form::Severity;
use std::alloc::Global;
use std::test::Fail;

// The name `$DB`, bound to that range.
fn bound_to(alloc: Global, span: Span) -> Result<Binding, Memory> {
    let mut binding = Binding::empty(alloc);
    let bound = Bound {
        name: Text::from_str(alloc, "$DB")?,
        span,
        nodes: List::new(alloc),
    };
    if binding.get("$DB").is_none() {
        binding.bind(bound)?;
    }
    Ok(binding)
}

// A result of a call `cur.execute(..)` between two places, in which `cur` has that range, and to which data gets from a source
// by these points.
fn traced(
    alloc: Global,
    start: Place,
    end: Place,
    name: Span,
    source: Span,
    points: &[u32],
) -> Result<Reported, Memory> {
    let mut trace = List::new(alloc);
    for point in points {
        trace.push((*point, Role::Head))?;
    }
    Ok(Reported {
        path: Text::from_str(alloc, "src/a.py")?,
        id: Text::from_str(alloc, "sqli")?,
        severity: Severity::Error,
        message: Text::from_str(alloc, "Tainted data reaches cur.execute.")?,
        fix: None,
        start,
        end,
        finding: Finding {
            span: Span {
                from: start.offset,
                to: end.offset,
            },
            binding: bound_to(alloc, name)?,
            source: Some(source),
        },
        trace,
    })
}

// A report of one result.
fn report_of(alloc: Global, reported: Reported) -> Result<Report, Memory> {
    let mut results = List::new(alloc);
    results.push(reported)?;
    Ok(Report {
        results,
        notices: List::new(alloc),
    })
}

// A trace stands behind the source.
#[test]
fn traces_stand_in_reports(rt: HostRuntime) -> Result<(), Fail> {
    let alloc = rt.alloc();
    let start = Place {
        line: 5,
        col: 5,
        offset: 74,
    };
    let end = Place {
        line: 5,
        col: 19,
        offset: 88,
    };
    let name = Span { from: 74, to: 77 };
    let source = Span { from: 20, to: 37 };
    let reported = traced(alloc, start, end, name, source, &[16, 42, 74])?;
    let text = report_text(alloc, &report_of(alloc, reported)?)?;
    let line =
        "{\"notices\":[],\"results\":[{\"check_id\":\"sqli\",\"end\":{\"col\":19,\"line\":5,\"offset\":88},\"extra\":{\"message\":\"Tainted data reaches cur.execute.\",\"metavars\":{\"$DB\":[74,77]},\"severity\":\"ERROR\",\"source\":[20,37],\"trace\":[[16,\"Head\"],[42,\"Head\"],[74,\"Head\"]]},\"path\":\"src/a.py\",\"start\":{\"col\":5,\"line\":5,\"offset\":74}}]}\n";
    if text.as_slice() != line.as_bytes() {
        return Err(Fail::new(format_args!("a report has another line")));
    }
    Ok(())
}

// The same in reports with fixes, of a trace that goes through a loop.
#[test]
fn traces_stand_in_reports_with_fixes(rt: HostRuntime) -> Result<(), Fail> {
    let alloc = rt.alloc();
    let start = Place {
        line: 4,
        col: 9,
        offset: 46,
    };
    let end = Place {
        line: 4,
        col: 23,
        offset: 60,
    };
    let name = Span { from: 46, to: 49 };
    let source = Span { from: 73, to: 90 };
    let reported = traced(alloc, start, end, name, source, &[16, 26, 46, 69, 26, 46])?;
    let fixed = FixReport {
        report: report_of(alloc, reported)?,
        files: List::new(alloc),
    };
    let text = fix_text(alloc, &fixed)?;
    let line =
        "{\"fixed\":[],\"notices\":[],\"results\":[{\"check_id\":\"sqli\",\"end\":{\"col\":23,\"line\":4,\"offset\":60},\"extra\":{\"message\":\"Tainted data reaches cur.execute.\",\"metavars\":{\"$DB\":[46,49]},\"severity\":\"ERROR\",\"source\":[73,90],\"trace\":[[16,\"Head\"],[26,\"Head\"],[46,\"Head\"],[69,\"Head\"],[26,\"Head\"],[46,\"Head\"]]},\"path\":\"src/a.py\",\"start\":{\"col\":9,\"line\":4,\"offset\":46}}]}\n";
    if text.as_slice() != line.as_bytes() {
        return Err(Fail::new(format_args!("a report with fixes has another line")));
    }
    Ok(())
}

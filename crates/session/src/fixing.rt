//! What the fixes of a report make of files.

ghost use Rattle.std.specs.Prelude.{◌≡◌, ℕ, [], map, None, Err, IfOk, IfSome, IfNone, OnOk, OnErr, IsTrue};
ghost use Rattle.file_map.specs.FileMap.{over_limit};
ghost use Rattle.file_map.specs.declared.limit.LimitKind.{LimitKind as limit_kind};
ghost use Rattle.fix_apply.specs.Order.{AreInOrder};
ghost use Rattle.fix_apply.specs.Choices.{AreChosen};
ghost use Rattle.workspace.specs.declared.fault.FixFault.TheVariants as fix_faults;
ghost use Rattle.workspace.specs.Fixes.{IsFixed, AreFixed, files_fixed};
ghost use Rattle.session.specs.Sessions.{EndWithin, AddsFixed, FixesOver, text_of};

use file_map::{FileMap, PutFault};
use fix_apply::{FixReport, FixedFile, apply, choose};
use node_tree::{Bytes, List, Memory, Text, Twin};
use report_form::{Edit, Report, Reported};
use std::alloc::Global;
use std::rc::Rc;
use workspace::FixFault;

// Whether all edits end within so many bytes.
fn end_within(edits: &[Edit], size: usize) -> bool
    ensures { IsTrue result → EndWithin size edits.now }
{
    for edit in edits {
        if edit.span.to as usize > size {
            return false;
        }
    }
    true
}

// The file with the fixes that are taken in it, if there are any.
fn fixed_file(
    alloc: Global,
    path: &str,
    bytes: &[u8],
    results: &List<Reported>,
) -> Result<Option<FixedFile>, Memory>
    requires { AreInOrder results.now }
    ensures fixed { IfOk result (λ fixed. IfSome fixed (IsFixed results.now (path.now, bytes.now))) }
    ensures unchanged { IfOk result (λ fixed. IfNone fixed (AreChosen path.now results.now [])) }
{
    let edits = choose(alloc, results, path)?;
    if edits.is_empty() {
        return Ok(None);
    }
    // Findings end within their files, which no contract of a scan says so far.
    if !end_within(edits.as_slice(), bytes.len()) {
        return Err(Memory);
    }
    let whole = apply(alloc, bytes, &edits)?;
    Ok(Some(FixedFile {
        path: Text::from_str(alloc, path)?,
        edits,
        whole,
    }))
}

// Adds the file with the fixes that are taken in it, if there are any.
fn add_fixed(
    alloc: Global,
    path: &str,
    bytes: &[u8],
    results: &List<Reported>,
    fixed: &mut List<FixedFile>,
) -> Result<(), Memory>
    requires { AreInOrder results.now }
    ensures { OnOk result (AddsFixed results.now (path.now, bytes.now) fixed.old fixed.new) }
{
    match fixed_file(alloc, path, bytes, results)? {
        None => Ok(()),
        Some(one) => fixed.push(one),
    }
}

// What the fixes that are taken make of the files in which there are some, in order of path.
fn fixed_files(
    alloc: Global,
    files: &FileMap,
    results: &List<Reported>,
) -> Result<List<FixedFile>, Memory>
    requires { AreInOrder results.now }
    ensures { IfOk result (AreFixed results.now files.now) }
{
    let mut fixed = List::new(alloc);
    let entries = files.entries()?;
    for (path, bytes) in entries.as_slice() {
        add_fixed(
            alloc,
            path,
            Rc::as_ref(bytes).as_slice(),
            results,
            &mut fixed,
        )?;
    }
    Ok(fixed)
}

// The paths of changed files, each with all of its text.
fn texts_of(alloc: Global, files: &[FixedFile]) -> Result<List<(Text, Bytes)>, Memory>
    ensures { IfOk result (λ texts. texts ≡ map text_of files.now) }
{
    let mut texts = List::new(alloc);
    for file in files {
        texts.push((file.path.copy()?, file.whole.copy()?))?;
    }
    Ok(texts)
}

/// Puts what the fixes of a report make of the files. It is refused where they would have more than 33,554,432 bytes then.
pub fn fix_by(alloc: Global, files: &mut FileMap, report: Report) -> Result<FixReport, FixFault>
    requires { AreInOrder report.results }
    ensures report { IfOk result (λ fixed. fixed.report ≡ report) }
    ensures fixed { IfOk result (λ fixed. AreFixed report.results files.old fixed.files) }
    ensures put { IfOk result (λ fixed. files.new ≡ files_fixed files.old fixed.files) }
    ensures within { IfOk result (λ fixed. over_limit (files_fixed files.old fixed.files) ≡ None) }
    ensures over { (kind : limit_kind) (n : ℕ) → result ≡ Err (fix_faults.OverLimit kind n) → FixesOver report.results files.old kind n }
    ensures not_many { (n : ℕ) → result ≡ Err (fix_faults.TooMany n) → ⊥ }
    ensures refused { OnErr result (files.new ≡ files.old) }
{
    let fixed = fixed_files(alloc, files, &report.results)?;
    let texts = texts_of(alloc, fixed.as_slice())?;
    match files.replace_all(texts.as_slice()) {
        Ok(()) => Ok(FixReport {
            report,
            files: fixed,
        }),
        Err(PutFault::Memory) => Err(FixFault::Memory),
        Err(PutFault::OverLimit(kind, count)) => Err(FixFault::OverLimit(kind, count)),
    }
}

//! The session of a drill: a large valid input that is made from a number.
#![tactic(auto)]

ghost use Rattle.std.specs.Prelude.{◌≡◌, codes, IfOk};
ghost use Rattle.wire_drill.specs.Drill as spec;
ghost use Rattle.wire_stream.specs.declared.wire.Wire.TheVariants.{Rule as rule_file};

use node_tree::{Bytes, List, Memory, Text};
use std::alloc::Global;
use wire_stream::Wire;

const RULES: &str = "rules:
- id: p
  languages: [python]
  severity: INFO
  message: m
  pattern: run($X)
- id: t
  mode: taint
  languages: [python]
  severity: INFO
  message: m
  pattern-sources:
  - pattern: read()
  pattern-sinks:
  - pattern: run(...)
  pattern-sanitizers:
  - pattern: clean(...)
";

/// What the file of this number reads: that of an odd number cleans it.
fn read_in(number: u32) -> &'static str
    ensures { result.now ≡ spec.read_in number }
{
    if number % 2 == 0 {
        "read()"
    } else {
        "clean(read())"
    }
}

/// Puts the file of this number, which runs what this expression reads.
fn put_file(alloc: Global, number: u32, read: &str) -> Result<Wire, Memory>
    ensures { IfOk result (λ wire. wire ≡ spec.put_file number read.now) }
{
    let path = format!(in alloc; "d/f{number}.py")?;
    let text = format!(in alloc; "def f{number}(q):\n    s = {read}\n    run(s)\n")?;
    let path = Text::from_str(alloc, path.as_str())?;
    let bytes = Bytes::from_slice(alloc, text.as_bytes())?;
    Ok(Wire::Put(path, bytes))
}

/// Puts the rules.
fn put_rules(alloc: Global) -> Result<Wire, Memory>
    ensures { IfOk result (λ wire. wire ≡ rule_file (codes "r") spec.rules_text) }
{
    let name = Text::from_str(alloc, "r")?;
    let bytes = Bytes::from_slice(alloc, RULES.as_bytes())?;
    Ok(Wire::Rule(name, bytes))
}

/// The commands of the drill with so many files: these and their rules are put and scanned, and once more when the first file has
/// changed into one that cleans what it reads.
pub fn drill_input(alloc: Global, count: u32) -> Result<List<Wire>, Memory>
    ensures { IfOk result (λ wires. wires ≡ spec.drill count) }
{
    let mut wires = List::new(alloc);
    for number in 0..count {
        wires.push(put_file(alloc, number, read_in(number))?)?;
    }
    wires.push(put_rules(alloc)?)?;
    wires.push(Wire::Scan)?;
    wires.push(put_file(alloc, 0, read_in(1))?)?;
    wires.push(Wire::Scan)?;
    Ok(wires)
}

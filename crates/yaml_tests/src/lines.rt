//! Texts, and their lines: each as its number and column, its marks, its key, its value, and the number of lines that go on.

use node_tree::List;
use shown::parted;
use std::alloc::AllocError;
use std::fmt::Write;
use std::test::Fail;
use yaml_lines::{YFault, YLine, lines};

// The lines as the rows write them.
fn write_lines(out: &mut String, lines: &List<YLine>) -> Result<(), AllocError> {
    for line in lines.as_slice() {
        write!(out, "{}:{}", line.number, line.column)?;
        for dash in line.dashes.as_slice() {
            write!(out, " @{dash}")?;
        }
        if let Some(key) = &line.key {
            write!(out, " {}:", key.as_str())?;
        }
        write!(out, " <{}> {}\n", line.value.as_str(), line.body.len())?;
    }
    Ok(())
}

#[test]
fn reads_lines_or_names_the_first_feature(rt: HostRuntime) -> Result<(), Fail> {
    let rows = [
        "# rules\n---\nrules:\n- id: \"a\\u0041\"   # the name\n  languages: [python,\n    c]  # two\n  message: >-\n    Tainted # data\n\n    reaches\n  patterns:\n    - pattern: f($X)\n        more\n    - 'pattern-regex': '[\"#] # x''y'\n    - - x\n ⇒ 3:0 rules: <> 0\n4:2 @0 id: <\"a\\u0041\"> 0\n5:2 languages: <[python,> 1\n7:2 message: <>-> 3\n11:2 patterns: <> 0\n12:6 @4 pattern: <f($X)> 1\n14:6 @4 pattern-regex: <'[\"#] # x''y'> 0\n15:8 @4 @6 <x> 0\n",
        "\"a\\n\\x41\\u00e9\" : 1\n'b''c': 2\nd e: f: g\n\"\\q\": 1\n[a]: 1\n ⇒ 1:0 a\nAé: <1> 0\n2:0 b'c: <2> 0\n3:0 d e: <f: g> 0\n4:0 <\"\\q\": 1> 0\n5:0 <[a]: 1> 0\n",
        // Where a value ends.
        "a: b\n\n  c # d\n  e\nf: |\n\n  g\n h\n  \ni: |+\n  j\n\n ⇒ 1:0 a: <b> 2\n4:2 <e> 0\n5:0 f: <|> 2\n8:1 <h> 0\n10:0 i: <|+> 2\n",
        "-\ta\n ⇒ 1:2 @0 <a> 0\n",
        "a: &x 1 ⇒ OutsideProfile(Anchor, 1)",
        "a: 1\n*a : &b\n ⇒ OutsideProfile(Alias, 2)",
        "a:\n\tb\n ⇒ OutsideProfile(Tab, 2)",
        "-\ta: 1\n ⇒ OutsideProfile(Tab, 1)",
        "---\na: 1\n--- b\n ⇒ OutsideProfile(Document, 3)",
        "a: |2\n   b\n ⇒ OutsideProfile(IndentDigit, 1)",
        "? a\n ⇒ OutsideProfile(ComplexKey, 1)",
        "a: 'x\n  &d\n  y'\nb: {c: 1}\n ⇒ OutsideProfile(FlowMap, 4)",
        "a: |\n  &x\n%b\n ⇒ OutsideProfile(Directive, 3)",
    ];
    for row in rows {
        let (text, wanted) = parted(row);
        let mut out = String::new(rt.alloc());
        assert!(rt; text.len() <= 1_000_000);
        match lines(rt.alloc(), text.as_bytes()) {
            Ok(lines) => write_lines(&mut out, &lines)?,
            Err(fault) => write!(out, "{fault:?}")?,
        }
        assert_eq!(rt; out.as_str(), wanted, "{text}");
    }
    assert!(rt; lines(rt.alloc(), &[255]).err() == Some(YFault::NotUtf8));
    Ok(())
}

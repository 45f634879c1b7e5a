//! Texts, and their values.

use shown::{parted, repeated};
use std::alloc::AllocError;
use std::fmt::Write;
use std::test::Fail;
use yaml_cells::YValue;
use yaml_lines::YFault;
use yaml_read::read_yaml;

// The value as it is written here: `~`, `w` and a word, `q` and a quoted text, `[..]` or `{..}`.
fn show(out: &mut String, value: &YValue) -> Result<(), AllocError> {
    match value {
        YValue::Null => out.push('~')?,
        YValue::Word(text) => {
            out.push('w')?;
            out.push_str(text.as_str())?;
        }
        YValue::Quoted(text) => {
            out.push('q')?;
            out.push_str(text.as_str())?;
        }
        YValue::Seq(items) => {
            out.push('[')?;
            for item in items.as_slice() {
                show(out, item)?;
                out.push(',')?;
            }
            out.push(']')?;
        }
        YValue::Map(entries) => {
            out.push('{')?;
            for entry in entries.as_slice() {
                out.push_str(entry.0.as_str())?;
                out.push('=')?;
                show(out, &entry.1)?;
                out.push(',')?;
            }
            out.push('}')?;
        }
    }
    Ok(())
}

// The value of a text, or `!` and the cause why there is none.
fn read(rt: &HostRuntime, text: &str) -> Result<String, AllocError> {
    let mut out = String::new(rt.alloc());
    if text.len() > 1_000_000 {
        return Ok(out);
    }
    match read_yaml(rt.alloc(), text.as_bytes()) {
        Ok(value) => show(&mut out, &value)?,
        Err(fault) => write!(out, "!{fault:?}")?,
    }
    Ok(out)
}

#[test]
fn reads_values_or_names_the_first_cause(rt: HostRuntime) -> Result<(), Fail> {
    let rows = [
        // Mappings and sequences.
        " ⇒ ~",
        "--- ⇒ ~",
        "a:\n- 1\nb: >-\n  p\n  q\n ⇒ {a=[w1,],b=qp q,}",
        "a:\nb: 1 ⇒ {a=~,b=w1,}",
        "a:\n  - 1\nb:\n- - 3\n  - 4\n-\n- x: y\n  z:\n ⇒ {a=[w1,],b=[[w3,w4,],~,{x=wy,z=~,},],}",
        "- a\n - b ⇒ [wa - b,]",
        "-\ta ⇒ [wa,]",
        "a\nb\n ⇒ wa b",
        "a: b\n  c # d\nb: 1 ⇒ {a=wb c,b=w1,}",
        "\u{feff}a: 1\r\nb: 2\r\n ⇒ {a=w1,b=w2,}",
        // Quoted scalars.
        "\"\\0\\a\\b\\t\\\t\\n\\v\\f\\r\\e\\ \\\"\\/\\\\\\N\\_\\L\\P\\x41\\u00e9\\U0001F600\" ⇒ q\0\u{7}\u{8}\t\t\n\u{b}\u{c}\r\u{1b} \"/\\\u{85}\u{a0}\u{2028}\u{2029}Aé😀",
        "\"\\ud800\" ⇒ !NoValue",
        "\"\\U00110000\" ⇒ !NoValue",
        "\"\\x4\" ⇒ !NoValue",
        "\"\\x4\\\n1\" ⇒ !NoValue",
        "a: \"x\\ \n  y\" ⇒ {a=qx  y,}",
        "a: \"x\\\n  y\" ⇒ {a=qxy,}",
        "\"a \\\n\n\n  b\" ⇒ qa \n\nb",
        "\"a \\\n   \\ b\" ⇒ qa  b",
        "\"a\n\n\" ⇒ qa\n",
        "'a  \n  b\t \n\n\n c ' ⇒ qa b\n\nc ",
        "a: 'b\nc' ⇒ {a=qb c,}",
        "'it''s' ⇒ qit's",
        // Block scalars.
        "a: |\n  x ⇒ {a=qx,}",
        "a: |+\n  x ⇒ {a=qx,}",
        "a: |\n  x\n ⇒ {a=qx\n,}",
        "|\nx\ny\n ⇒ qx\ny\n",
        "a: |\n    \n  x\n ⇒ {a=q  \nx\n,}",
        "a: >\n  x\n    \n  y\n ⇒ {a=qx\n  \ny\n,}",
        "a: |-\n  x\n    \n ⇒ {a=qx\n  ,}",
        "a: |\nx: y\n ⇒ {a=q,x=wy,}",
        "a: |\n    x\n  # y\nb: 1 ⇒ {a=qx\n,b=w1,}",
        "a: |+\n\n\n ⇒ {a=q\n\n,}",
        "a: |\n \n\n ⇒ {a=q,}",
        "a: >\n\n  x\n  y\n\n  z\n   w\n  v\n\n ⇒ {a=q\nx y\nz\n w\nv\n,}",
        "a: |-\r\n  x\r\n  y\r\n ⇒ {a=qx\ny,}",
        // Flow sequences.
        "[] ⇒ []",
        "[a, 'b''c', \"d\", [e, [f]], ] ⇒ [wa,qb'c,qd,[we,[wf,],],]",
        "[a[b] ⇒ [wa[b,]",
        "[a{b}] ⇒ [wa{b},]",
        "[a:, b] ⇒ [wa:,wb,]",
        "[:a, ?a, -a, :, -] ⇒ [w:a,w?a,w-a,w:,w-,]",
        "[a: ] ⇒ !NoValue",
        "[- ] ⇒ !NoValue",
        "[a:\n ] ⇒ !NoValue",
        "[a # c\n b] ⇒ !NoValue",
        "[a # c\n, b] ⇒ [wa,wb,]",
        "[ # [\n a, # c\n b # d\n] ⇒ [wa,wb,]",
        "[a\n b\n\n c, \"d\n\n # e\"] ⇒ [wa b\nc,qd\n# e,]",
        "[\"x\\ \n y\"] ⇒ [qx  y,]",
        "[#a] ⇒ !NoValue",
        "[a,,b] ⇒ !NoValue",
        "[,] ⇒ !NoValue",
        // No value.
        "a: &x 1 ⇒ !OutsideProfile(Anchor, 1)",
        "a: b: c\nd: {e: f} ⇒ !OutsideProfile(FlowMap, 2)",
        "%a ⇒ !OutsideProfile(Directive, 1)",
        "a: 1\n  b: 2\n ⇒ !NoValue",
        "\"\\q\": 1 ⇒ !NoValue",
        "[a]: 1 ⇒ !NoValue",
        "a: |10\n  x ⇒ !NoValue",
        "a: |2x\n  x ⇒ !NoValue",
        "[&a] ⇒ !NoValue",
        "[{x: 1}] ⇒ !NoValue",
        "a: 1\n'a': 2\n ⇒ !NoValue",
        "a: b # c\n  d ⇒ !NoValue",
        "a: b\n  # c\n  d ⇒ !NoValue",
        "\"a\":b ⇒ !NoValue",
        "'b' c ⇒ !NoValue",
        "[a] b ⇒ !NoValue",
        "'b'#c ⇒ !NoValue",
        "a:\nb ⇒ !NoValue",
        "- a\nb: 1 ⇒ !NoValue",
        "a: - b ⇒ !NoValue",
        "a: 1\n- b ⇒ !NoValue",
        "a: b: c ⇒ !NoValue",
        "a: b: ⇒ !NoValue",
        "a: @b ⇒ !NoValue",
        "a:\n    b: 1\n  c: 2 ⇒ !NoValue",
        "a: |\n    x\n  y\n ⇒ !NoValue",
        "'a ⇒ !NoValue",
        "[a ⇒ !NoValue",
        "a: |- x\n  y\n ⇒ !NoValue",
    ];
    for row in rows {
        let (text, wanted) = parted(row);
        assert_eq!(rt; read(&rt, text)?.as_str(), wanted, "{text}");
    }
    assert!(rt; read_yaml(rt.alloc(), &[97, 58, 32, 255]).err() == Some(YFault::NotUtf8));
    Ok(())
}

#[test]
fn bounds_the_depth(rt: HostRuntime) -> Result<(), Fail> {
    let rows = [
        (&[(100, "["), (100, "]")], true),
        (&[(101, "["), (101, "]")], false),
        (&[(99, "- "), (1, "a")], true),
        (&[(100, "- "), (1, "a")], false),
        (&[(99, "- "), (0, "")], true),
        (&[(100, "- "), (0, "")], false),
    ];
    for (pieces, works) in rows {
        let text = repeated(rt.alloc(), pieces)?;
        assert!(rt;
            (read(&rt, text.as_str())?.as_str() != "!NoValue") == works,
            "{pieces:?}"
        );
    }
    let text = repeated(rt.alloc(), &[(100, "["), (1, "a"), (100, "]")])?;
    assert_eq!(rt; read(&rt, text.as_str())?.as_str(), "!NoValue");
    Ok(())
}

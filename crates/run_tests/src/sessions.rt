//! Runs of `session`.

use crate::runs::{World, file_of, outcome_in};
use node_tree::{Bytes, List, Text};
use rx_text::{FakePatterns, RealPatterns};
use shown::same;
use std::alloc::Global;
use std::fmt::Write;
use std::test::Fail;

// A stream of four commands, of which three print a line.
const FOUR: &str = "scan\ndel a.py\nscan\nend\n";

// How a session of this stream ends over a folder with one file, where these calls fail.
fn session(alloc: Global, words: &[&str], stream: &str, failing: [u32; 3]) -> Result<String, Fail> {
    let mut files = List::new(alloc);
    files.push(file_of(alloc, "src/e.py", "f(1)\n")?)?;
    let input = Bytes::from_slice(alloc, stream.as_bytes())?;
    let mut patterns = RealPatterns::new(alloc);
    let world = World {
        files,
        input,
        piece: 5,
        failing,
    };
    Ok(outcome_in(alloc, words, world, &mut patterns)?.0)
}

// The stream, and what a session of it prints.
#[test]
fn prints_what_is_found_then(rt: HostRuntime) -> Result<(), Fail> {
    let rows = [
        // A file and a rule, the same again, another rule, and no file.
        (
            "put 5 a.py\nf(1)\n\nrule 84 r\nrules:\n- id: p\n  languages: [python]\n  severity: INFO\n  message: m\n  pattern: f($X)\n\nscan\nput 5 a.py\nf(1)\n\nscan\nrule 83 r\nrules:\n- id: p\n  languages: [python]\n  severity: INFO\n  message: m\n  pattern: f(2)\n\nscan\ndel a.py\nscan\nend\n",
            "{\"notices\":[],\"results\":[{\"check_id\":\"p\",\"end\":{\"col\":5,\"line\":1,\"offset\":4},\"extra\":{\"message\":\"m\",\"metavars\":{\"$X\":[2,3]},\"severity\":\"INFO\"},\"path\":\"a.py\",\"start\":{\"col\":1,\"line\":1,\"offset\":0}}]}\n{\"notices\":[],\"results\":[{\"check_id\":\"p\",\"end\":{\"col\":5,\"line\":1,\"offset\":4},\"extra\":{\"message\":\"m\",\"metavars\":{\"$X\":[2,3]},\"severity\":\"INFO\"},\"path\":\"a.py\",\"start\":{\"col\":1,\"line\":1,\"offset\":0}}]}\n{\"notices\":[],\"results\":[]}\n{\"removed\":true}\n{\"notices\":[],\"results\":[]}\n",
        ),
        // Statements that move.
        (
            "put 36 a.py\ndef a():\n    f(1)\ndef b():\n    f(2)\n\nrule 84 r\nrules:\n- id: p\n  languages: [python]\n  severity: INFO\n  message: m\n  pattern: f($X)\n\nscan\nput 37 a.py\n\ndef a():\n    f(1)\ndef b():\n    f(3)\n\nscan\nend\n",
            "{\"notices\":[],\"results\":[{\"check_id\":\"p\",\"end\":{\"col\":9,\"line\":2,\"offset\":17},\"extra\":{\"message\":\"m\",\"metavars\":{\"$X\":[15,16]},\"severity\":\"INFO\"},\"path\":\"a.py\",\"start\":{\"col\":5,\"line\":2,\"offset\":13}},{\"check_id\":\"p\",\"end\":{\"col\":9,\"line\":4,\"offset\":35},\"extra\":{\"message\":\"m\",\"metavars\":{\"$X\":[33,34]},\"severity\":\"INFO\"},\"path\":\"a.py\",\"start\":{\"col\":5,\"line\":4,\"offset\":31}}]}\n{\"notices\":[],\"results\":[{\"check_id\":\"p\",\"end\":{\"col\":9,\"line\":3,\"offset\":18},\"extra\":{\"message\":\"m\",\"metavars\":{\"$X\":[16,17]},\"severity\":\"INFO\"},\"path\":\"a.py\",\"start\":{\"col\":5,\"line\":3,\"offset\":14}},{\"check_id\":\"p\",\"end\":{\"col\":9,\"line\":5,\"offset\":36},\"extra\":{\"message\":\"m\",\"metavars\":{\"$X\":[34,35]},\"severity\":\"INFO\"},\"path\":\"a.py\",\"start\":{\"col\":5,\"line\":5,\"offset\":32}}]}\n",
        ),
        // Two rule files with one id.
        (
            "rule 84 a\nrules:\n- id: p\n  languages: [python]\n  severity: INFO\n  message: m\n  pattern: f($X)\n\nrule 84 b\nrules:\n- id: p\n  languages: [python]\n  severity: INFO\n  message: m\n  pattern: f($X)\n\nscan\nunrule a\nscan\nunrule a\nend\n",
            "{\"notices\":[{\"detail\":\"rules.0.id\",\"kind\":\"DuplicateId\",\"path\":\"b\",\"rule\":\"p\"}],\"results\":[]}\n{\"removed\":true}\n{\"notices\":[],\"results\":[]}\n{\"removed\":false}\n",
        ),
        // Fixes, and fixes of what they left.
        (
            "put 13 a.py\nf(f(1))\nf(2)\n\nrule 97 r\nrules:\n- id: p\n  languages: [python]\n  severity: INFO\n  message: m\n  pattern: f($X)\n  fix: g($X)\n\nfix\nfix\nscan\nend\n",
            "{\"fixed\":[{\"path\":\"a.py\",\"ranges\":[[0,7,\"g(f(1))\"],[8,12,\"g(2)\"]]}],\"notices\":[],\"results\":[{\"check_id\":\"p\",\"end\":{\"col\":8,\"line\":1,\"offset\":7},\"extra\":{\"fix\":\"g(f(1))\",\"message\":\"m\",\"metavars\":{\"$X\":[2,6]},\"severity\":\"INFO\"},\"path\":\"a.py\",\"start\":{\"col\":1,\"line\":1,\"offset\":0}},{\"check_id\":\"p\",\"end\":{\"col\":7,\"line\":1,\"offset\":6},\"extra\":{\"fix\":\"g(1)\",\"message\":\"m\",\"metavars\":{\"$X\":[4,5]},\"severity\":\"INFO\"},\"path\":\"a.py\",\"start\":{\"col\":3,\"line\":1,\"offset\":2}},{\"check_id\":\"p\",\"end\":{\"col\":5,\"line\":2,\"offset\":12},\"extra\":{\"fix\":\"g(2)\",\"message\":\"m\",\"metavars\":{\"$X\":[10,11]},\"severity\":\"INFO\"},\"path\":\"a.py\",\"start\":{\"col\":1,\"line\":2,\"offset\":8}}]}\n{\"fixed\":[{\"path\":\"a.py\",\"ranges\":[[2,6,\"g(1)\"]]}],\"notices\":[],\"results\":[{\"check_id\":\"p\",\"end\":{\"col\":7,\"line\":1,\"offset\":6},\"extra\":{\"fix\":\"g(1)\",\"message\":\"m\",\"metavars\":{\"$X\":[4,5]},\"severity\":\"INFO\"},\"path\":\"a.py\",\"start\":{\"col\":3,\"line\":1,\"offset\":2}}]}\n{\"notices\":[],\"results\":[]}\n",
        ),
        // What a folder has under a prefix.
        (
            "sync src\nrule 84 r\nrules:\n- id: p\n  languages: [python]\n  severity: INFO\n  message: m\n  pattern: f($X)\n\nscan\nsync .\nscan\nend\n",
            "{\"notices\":[],\"results\":[{\"check_id\":\"p\",\"end\":{\"col\":5,\"line\":1,\"offset\":4},\"extra\":{\"message\":\"m\",\"metavars\":{\"$X\":[2,3]},\"severity\":\"INFO\"},\"path\":\"src/e.py\",\"start\":{\"col\":1,\"line\":1,\"offset\":0}}]}\n{\"notices\":[],\"results\":[{\"check_id\":\"p\",\"end\":{\"col\":5,\"line\":1,\"offset\":4},\"extra\":{\"message\":\"m\",\"metavars\":{\"$X\":[2,3]},\"severity\":\"INFO\"},\"path\":\"src/e.py\",\"start\":{\"col\":1,\"line\":1,\"offset\":0}}]}\n",
        ),
        // Comments that quiet all rules, and then another one.
        (
            "put 28 a.py\nf(1)  # nosemgrep\nf(2)\nf(3)\n\nrule 84 r\nrules:\n- id: p\n  languages: [python]\n  severity: INFO\n  message: m\n  pattern: f($X)\n\nscan\nput 31 a.py\nf(1)  # nosemgrep: q\nf(2)\nf(3)\n\nscan\nend\n",
            "{\"notices\":[],\"results\":[{\"check_id\":\"p\",\"end\":{\"col\":5,\"line\":3,\"offset\":27},\"extra\":{\"message\":\"m\",\"metavars\":{\"$X\":[25,26]},\"severity\":\"INFO\"},\"path\":\"a.py\",\"start\":{\"col\":1,\"line\":3,\"offset\":23}}]}\n{\"notices\":[],\"results\":[{\"check_id\":\"p\",\"end\":{\"col\":5,\"line\":1,\"offset\":4},\"extra\":{\"message\":\"m\",\"metavars\":{\"$X\":[2,3]},\"severity\":\"INFO\"},\"path\":\"a.py\",\"start\":{\"col\":1,\"line\":1,\"offset\":0}},{\"check_id\":\"p\",\"end\":{\"col\":5,\"line\":2,\"offset\":25},\"extra\":{\"message\":\"m\",\"metavars\":{\"$X\":[23,24]},\"severity\":\"INFO\"},\"path\":\"a.py\",\"start\":{\"col\":1,\"line\":2,\"offset\":21}},{\"check_id\":\"p\",\"end\":{\"col\":5,\"line\":3,\"offset\":30},\"extra\":{\"message\":\"m\",\"metavars\":{\"$X\":[28,29]},\"severity\":\"INFO\"},\"path\":\"a.py\",\"start\":{\"col\":1,\"line\":3,\"offset\":26}}]}\n",
        ),
        // A name that holds another literal then.
        (
            "put 26 a.py\nK = \"a\"\ndef g():\n    f(K)\n\nrule 85 r\nrules:\n- id: p\n  languages: [python]\n  severity: INFO\n  message: m\n  pattern: f(\"a\")\n\nscan\nput 26 a.py\nK = \"b\"\ndef g():\n    f(K)\n\nscan\nend\n",
            "{\"notices\":[],\"results\":[{\"check_id\":\"p\",\"end\":{\"col\":9,\"line\":3,\"offset\":25},\"extra\":{\"message\":\"m\",\"metavars\":{},\"severity\":\"INFO\"},\"path\":\"a.py\",\"start\":{\"col\":5,\"line\":3,\"offset\":21}}]}\n{\"notices\":[],\"results\":[]}\n",
        ),
        // A name that is imported, and assigned then.
        (
            "put 32 a.py\nfrom os import system as s\ns(c)\n\nrule 92 r\nrules:\n- id: p\n  languages: [python]\n  severity: INFO\n  message: m\n  pattern: os.system($C)\n\nscan\nput 38 a.py\nfrom os import system as s\ns(c)\ns = 1\n\nscan\nend\n",
            "{\"notices\":[],\"results\":[{\"check_id\":\"p\",\"end\":{\"col\":5,\"line\":2,\"offset\":31},\"extra\":{\"message\":\"m\",\"metavars\":{\"$C\":[29,30]},\"severity\":\"INFO\"},\"path\":\"a.py\",\"start\":{\"col\":1,\"line\":2,\"offset\":27}}]}\n{\"notices\":[],\"results\":[]}\n",
        ),
        // One that is imported, by both of its names.
        (
            "put 30 a.py\nimport numpy as np\nnp.load(x)\n\nrule 94 r\nrules:\n- id: p\n  languages: [python]\n  severity: INFO\n  message: m\n  pattern: numpy.load(...)\n\nscan\nrule 91 r\nrules:\n- id: p\n  languages: [python]\n  severity: INFO\n  message: m\n  pattern: np.load(...)\n\nscan\nend\n",
            "{\"notices\":[],\"results\":[{\"check_id\":\"p\",\"end\":{\"col\":11,\"line\":2,\"offset\":29},\"extra\":{\"message\":\"m\",\"metavars\":{},\"severity\":\"INFO\"},\"path\":\"a.py\",\"start\":{\"col\":1,\"line\":2,\"offset\":19}}]}\n{\"notices\":[],\"results\":[{\"check_id\":\"p\",\"end\":{\"col\":11,\"line\":2,\"offset\":29},\"extra\":{\"message\":\"m\",\"metavars\":{},\"severity\":\"INFO\"},\"path\":\"a.py\",\"start\":{\"col\":1,\"line\":2,\"offset\":19}}]}\n",
        ),
        // Nothing at all.
        ("end\nwhat follows is not read", ""),
        // A command that is cut off.
        (
            "scan\nput 10 a.py\nabc",
            "BadCommand(5){\"notices\":[],\"results\":[]}\n",
        ),
        // No command.
        (
            "scan\nscam\n",
            "BadCommand(5){\"notices\":[],\"results\":[]}\n",
        ),
        // No end.
        ("scan\n", "BadCommand(5){\"notices\":[],\"results\":[]}\n"),
        // A length that is no number in decimal.
        ("put 05 a.py\n", "BadCommand(0)"),
    ];
    for (stream, wanted) in rows {
        let found = session(rt.alloc(), &["session"], stream, [0, 0, 0])?;
        same(stream, found.as_str(), wanted)?;
    }
    Ok(())
}

// The stream, the calls of the folder, the input and the output that fail, and how the session ends.
#[test]
fn stops_where_a_call_fails(rt: HostRuntime) -> Result<(), Fail> {
    let rows = [
        (FOUR, [0, 1, 0], "InputFault"),
        (
            FOUR,
            [0, 2, 0],
            "InputFault{\"notices\":[],\"results\":[]}\n",
        ),
        (
            FOUR,
            [0, 3, 0],
            "InputFault{\"notices\":[],\"results\":[]}\n",
        ),
        (
            FOUR,
            [0, 4, 0],
            "InputFault{\"notices\":[],\"results\":[]}\n{\"removed\":false}\n",
        ),
        (
            FOUR,
            [0, 5, 0],
            "InputFault{\"notices\":[],\"results\":[]}\n{\"removed\":false}\n{\"notices\":[],\"results\":[]}\n",
        ),
        (
            FOUR,
            [0, 6, 0],
            "{\"notices\":[],\"results\":[]}\n{\"removed\":false}\n{\"notices\":[],\"results\":[]}\n",
        ),
        (FOUR, [0, 0, 1], "OutputFault{\"notices\":[],"),
        (
            FOUR,
            [0, 0, 2],
            "OutputFault{\"notices\":[],\"results\":[]}\n{\"removed",
        ),
        (
            FOUR,
            [0, 0, 3],
            "OutputFault{\"notices\":[],\"results\":[]}\n{\"removed\":false}\n{\"notices\":[],",
        ),
        // What was read of a command that isn't whole is passed over.
        (
            "scan\nput 10 a.py\nabc",
            [0, 2, 0],
            "InputFault{\"notices\":[],\"results\":[]}\n",
        ),
        (
            "scan\nscan\nend\n",
            [0, 0, 2],
            "OutputFault{\"notices\":[],\"results\":[]}\n{\"notices\":[],",
        ),
    ];
    for (stream, failing, wanted) in rows {
        let found = session(rt.alloc(), &["session"], stream, failing)?;
        same(stream, found.as_str(), wanted)?;
    }
    Ok(())
}

// How long a front of that stream may be, and how a session of it ends then, for all fronts of more bytes than those before.
#[test]
fn tells_where_a_stream_is_cut_off(rt: HostRuntime) -> Result<(), Fail> {
    let rows = [
        (4, "BadCommand(0)"),
        (13, "BadCommand(5){\"notices\":[],\"results\":[]}\n"),
        (
            18,
            "BadCommand(14){\"notices\":[],\"results\":[]}\n{\"removed\":false}\n",
        ),
        (
            22,
            "BadCommand(19){\"notices\":[],\"results\":[]}\n{\"removed\":false}\n{\"notices\":[],\"results\":[]}\n",
        ),
    ];
    let mut from = 0;
    for (to, wanted) in rows {
        for count in from..=to {
            let front = FOUR.get(..count).unwrap_or("");
            let found = session(rt.alloc(), &["session"], front, [0, 0, 0])?;
            same(front, found.as_str(), wanted)?;
        }
        from = to + 1;
    }
    Ok(())
}

// Words of a session, its stream, and how it ends.
#[test]
fn keeps_the_limit_of_findings(rt: HostRuntime) -> Result<(), Fail> {
    let stream =
        "put 5 a.py\nf(1)\n\nrule 84 r\nrules:\n- id: p\n  languages: [python]\n  severity: INFO\n  message: m\n  pattern: f($X)\n\nscan\nend\n";
    let rows = [
        ("0", "{\"too_many\":0}\n"),
        (
            "1",
            "{\"notices\":[],\"results\":[{\"check_id\":\"p\",\"end\":{\"col\":5,\"line\":1,\"offset\":4},\"extra\":{\"message\":\"m\",\"metavars\":{\"$X\":[2,3]},\"severity\":\"INFO\"},\"path\":\"a.py\",\"start\":{\"col\":1,\"line\":1,\"offset\":0}}]}\n",
        ),
        (
            "50000",
            "{\"notices\":[],\"results\":[{\"check_id\":\"p\",\"end\":{\"col\":5,\"line\":1,\"offset\":4},\"extra\":{\"message\":\"m\",\"metavars\":{\"$X\":[2,3]},\"severity\":\"INFO\"},\"path\":\"a.py\",\"start\":{\"col\":1,\"line\":1,\"offset\":0}}]}\n",
        ),
        ("50001", "Usage"),
    ];
    for (most, wanted) in rows {
        let found = session(rt.alloc(), &["session", "--max", most], stream, [0, 0, 0])?;
        same(most, found.as_str(), wanted)?;
    }
    Ok(())
}

// How a session of this stream ends over no files, where the builder refuses a text once, and which texts it was asked for.
fn session_asking(alloc: Global, refused: &str, stream: &str) -> Result<String, Fail> {
    let mut texts = List::new(alloc);
    texts.push(Text::from_str(alloc, refused)?)?;
    let mut patterns = FakePatterns::new(texts, 1);
    let world = World {
        files: List::new(alloc),
        input: Bytes::from_slice(alloc, stream.as_bytes())?,
        piece: 512,
        failing: [0, 0, 0],
    };
    let (mut told, _) = outcome_in(alloc, &["session"], world, &mut patterns)?;
    for text in patterns.asked().as_slice() {
        write!(told, "{} ", text.as_str())?;
    }
    Ok(told)
}

// The stream, and what a session of it prints, with the texts that are asked for behind it. The builder refuses `a+` once. Each
// text is asked for once, in the order of the files of rules, of their entries and of the texts there.
#[test]
fn asks_once_for_a_text(rt: HostRuntime) -> Result<(), Fail> {
    let rows = [
        (
            "put 5 n.txt\ncaab\n\nrule 86 r\nrules:\n- id: p\n  languages: [regex]\n  severity: INFO\n  message: m\n  pattern-regex: a+\n\nscan\nscan\nfix\nend\n",
            "{\"notices\":[{\"detail\":\"a+\",\"kind\":\"Regex\",\"path\":\"r\",\"rule\":\"p\"}],\"results\":[]}\n{\"notices\":[{\"detail\":\"a+\",\"kind\":\"Regex\",\"path\":\"r\",\"rule\":\"p\"}],\"results\":[]}\n{\"fixed\":[],\"notices\":[{\"detail\":\"a+\",\"kind\":\"Regex\",\"path\":\"r\",\"rule\":\"p\"}],\"results\":[]}\na+ ",
        ),
        (
            "rule 85 s\nrules:\n- id: s\n  languages: [regex]\n  severity: INFO\n  message: m\n  pattern-regex: b\n\nrule 202 r\nrules:\n- id: p\n  languages: [regex]\n  severity: INFO\n  message: m\n  patterns:\n  - pattern-regex: d\n  - pattern-not-regex: c\n- id: q\n  languages: [regex]\n  severity: INFO\n  message: m\n  pattern-regex: c\n\nscan\nscan\nrule 126 a\nrules:\n- id: t\n  languages: [regex]\n  severity: INFO\n  message: m\n  pattern-either:\n  - pattern-regex: e\n  - pattern-regex: d\n\nfix\nend\n",
            "{\"notices\":[],\"results\":[]}\n{\"notices\":[],\"results\":[]}\n{\"fixed\":[],\"notices\":[],\"results\":[]}\nd c b e ",
        ),
    ];
    for (stream, wanted) in rows {
        let found = session_asking(rt.alloc(), "a+", stream)?;
        same(stream, found.as_str(), wanted)?;
    }
    Ok(())
}

// A stream that puts so many empty rule files.
fn rule_files(alloc: Global, count: u32) -> Result<String, Fail> {
    let mut stream = String::new(alloc);
    for number in 0..count {
        write!(stream, "rule 0 r{number}\n\n")?;
    }
    stream.push_str("end\n")?;
    Ok(stream)
}

#[test]
fn keeps_the_limit_of_rule_files(rt: HostRuntime) -> Result<(), Fail> {
    for (count, wanted) in [(100, ""), (101, "OverLimit(RuleFiles, 101)")] {
        let stream = rule_files(rt.alloc(), count)?;
        let found = session(rt.alloc(), &["session"], stream.as_str(), [0, 0, 0])?;
        same("rule files", found.as_str(), wanted)?;
    }
    Ok(())
}

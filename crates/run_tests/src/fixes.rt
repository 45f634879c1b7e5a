//! Runs of `fix`.

use crate::runs::{World, file_of, outcome_in};
use node_tree::{Bytes, List};
use rx_text::RealPatterns;
use scan_world::{MemoryTree, Tree};
use shown::same;
use std::alloc::Global;
use std::str;
use std::test::Fail;

// Words that write fixes, that write none, and that allow two findings.
const FIX: &[&str] = &["fix", "--config", "r.yaml", "src"];

const DRY: &[&str] = &["fix", "--dryrun", "--config", "r.yaml", "src"];

const FEW: &[&str] = &["fix", "--max", "2", "--config", "r.yaml", "src"];

// Files below `src`.
const ONE: &[(&str, &str)] = &[("src/a.py", "f(f(1))\nf(2)\n")];

const TWO: &[(&str, &str)] = &[("src/a.py", "f(f(1))\nf(2)\n"), ("src/b.py", "f(3)\n")];

// A rule with a fix.
const RULE: &str =
    "rules:\n- id: p\n  languages: [python]\n  severity: INFO\n  message: m\n  pattern: f($X)\n  fix: g($X)\n";

// Adds what the files hold then.
fn add_texts(text: &mut String, tree: &mut MemoryTree, files: &[(&str, &str)]) -> Result<(), Fail> {
    for (path, _) in files {
        let Ok(bytes) = tree.read(*path, 1_000) else {
            text.push_str("no file")?;
            continue;
        };
        text.push_str(str::from_utf8(bytes.as_slice())?)?;
    }
    Ok(())
}

// How a run of the words ends over these files, where this call of the folder fails, and what the files hold then.
fn fixed(
    alloc: Global,
    words: &[&str],
    given: &[(&str, &str)],
    failing: u32,
) -> Result<String, Fail> {
    let mut files = List::new(alloc);
    files.push(file_of(alloc, "r.yaml", RULE)?)?;
    for (path, text) in given {
        files.push(file_of(alloc, *path, *text)?)?;
    }
    let world = World {
        files,
        input: Bytes::new(alloc),
        piece: 1,
        failing: [failing, 0, 0],
    };
    let mut patterns = RealPatterns::new(alloc);
    let (mut text, mut tree) = outcome_in(alloc, words, world, &mut patterns)?;
    text.push_str(" ⇒ ")?;
    add_texts(&mut text, &mut tree, given)?;
    Ok(text)
}

// The words, the files, the call of the folder that fails, and how the run ends with what the files hold then.
#[test]
fn writes_changed_files(rt: HostRuntime) -> Result<(), Fail> {
    let rows = [
        (
            FIX,
            ONE,
            0,
            "{\"fixed\":[{\"path\":\"src/a.py\",\"ranges\":[[0,7,\"g(f(1))\"],[8,12,\"g(2)\"]]}],\"notices\":[],\"results\":[{\"check_id\":\"p\",\"end\":{\"col\":8,\"line\":1,\"offset\":7},\"extra\":{\"fix\":\"g(f(1))\",\"message\":\"m\",\"metavars\":{\"$X\":[2,6]},\"severity\":\"INFO\"},\"path\":\"src/a.py\",\"start\":{\"col\":1,\"line\":1,\"offset\":0}},{\"check_id\":\"p\",\"end\":{\"col\":7,\"line\":1,\"offset\":6},\"extra\":{\"fix\":\"g(1)\",\"message\":\"m\",\"metavars\":{\"$X\":[4,5]},\"severity\":\"INFO\"},\"path\":\"src/a.py\",\"start\":{\"col\":3,\"line\":1,\"offset\":2}},{\"check_id\":\"p\",\"end\":{\"col\":5,\"line\":2,\"offset\":12},\"extra\":{\"fix\":\"g(2)\",\"message\":\"m\",\"metavars\":{\"$X\":[10,11]},\"severity\":\"INFO\"},\"path\":\"src/a.py\",\"start\":{\"col\":1,\"line\":2,\"offset\":8}}]}\n ⇒ g(f(1))\ng(2)\n",
        ),
        (
            DRY,
            ONE,
            0,
            "{\"fixed\":[{\"path\":\"src/a.py\",\"ranges\":[[0,7,\"g(f(1))\"],[8,12,\"g(2)\"]]}],\"notices\":[],\"results\":[{\"check_id\":\"p\",\"end\":{\"col\":8,\"line\":1,\"offset\":7},\"extra\":{\"fix\":\"g(f(1))\",\"message\":\"m\",\"metavars\":{\"$X\":[2,6]},\"severity\":\"INFO\"},\"path\":\"src/a.py\",\"start\":{\"col\":1,\"line\":1,\"offset\":0}},{\"check_id\":\"p\",\"end\":{\"col\":7,\"line\":1,\"offset\":6},\"extra\":{\"fix\":\"g(1)\",\"message\":\"m\",\"metavars\":{\"$X\":[4,5]},\"severity\":\"INFO\"},\"path\":\"src/a.py\",\"start\":{\"col\":3,\"line\":1,\"offset\":2}},{\"check_id\":\"p\",\"end\":{\"col\":5,\"line\":2,\"offset\":12},\"extra\":{\"fix\":\"g(2)\",\"message\":\"m\",\"metavars\":{\"$X\":[10,11]},\"severity\":\"INFO\"},\"path\":\"src/a.py\",\"start\":{\"col\":1,\"line\":2,\"offset\":8}}]}\n ⇒ f(f(1))\nf(2)\n",
        ),
        (FEW, ONE, 0, "TooMany(2) ⇒ f(f(1))\nf(2)\n"),
        (FIX, ONE, 1, "TreeFault ⇒ f(f(1))\nf(2)\n"),
        (FIX, ONE, 2, "TreeFault ⇒ f(f(1))\nf(2)\n"),
        (FIX, ONE, 3, "TreeFault ⇒ f(f(1))\nf(2)\n"),
        (FIX, ONE, 4, "TreeFault ⇒ f(f(1))\nf(2)\n"),
        (
            FIX,
            TWO,
            0,
            "{\"fixed\":[{\"path\":\"src/a.py\",\"ranges\":[[0,7,\"g(f(1))\"],[8,12,\"g(2)\"]]},{\"path\":\"src/b.py\",\"ranges\":[[0,4,\"g(3)\"]]}],\"notices\":[],\"results\":[{\"check_id\":\"p\",\"end\":{\"col\":8,\"line\":1,\"offset\":7},\"extra\":{\"fix\":\"g(f(1))\",\"message\":\"m\",\"metavars\":{\"$X\":[2,6]},\"severity\":\"INFO\"},\"path\":\"src/a.py\",\"start\":{\"col\":1,\"line\":1,\"offset\":0}},{\"check_id\":\"p\",\"end\":{\"col\":7,\"line\":1,\"offset\":6},\"extra\":{\"fix\":\"g(1)\",\"message\":\"m\",\"metavars\":{\"$X\":[4,5]},\"severity\":\"INFO\"},\"path\":\"src/a.py\",\"start\":{\"col\":3,\"line\":1,\"offset\":2}},{\"check_id\":\"p\",\"end\":{\"col\":5,\"line\":2,\"offset\":12},\"extra\":{\"fix\":\"g(2)\",\"message\":\"m\",\"metavars\":{\"$X\":[10,11]},\"severity\":\"INFO\"},\"path\":\"src/a.py\",\"start\":{\"col\":1,\"line\":2,\"offset\":8}},{\"check_id\":\"p\",\"end\":{\"col\":5,\"line\":1,\"offset\":4},\"extra\":{\"fix\":\"g(3)\",\"message\":\"m\",\"metavars\":{\"$X\":[2,3]},\"severity\":\"INFO\"},\"path\":\"src/b.py\",\"start\":{\"col\":1,\"line\":1,\"offset\":0}}]}\n ⇒ g(f(1))\ng(2)\ng(3)\n",
        ),
        (FIX, TWO, 5, "TreeFault ⇒ f(f(1))\nf(2)\nf(3)\n"),
        (FIX, TWO, 6, "TreeFault ⇒ g(f(1))\ng(2)\nf(3)\n"),
    ];
    for (words, files, failing, wanted) in rows {
        let found = fixed(rt.alloc(), words, files, failing)?;
        same("fix", found.as_str(), wanted)?;
    }
    Ok(())
}

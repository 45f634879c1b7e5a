//! `semscan`: where patterns that look like code match, in the input or in a folder.
#![tactic(auto)]

ghost use Rattle.std.specs.Prelude.{◌≡◌, ◌<◌, map, string_bytes};
ghost use Rattle.scan_world.specs.Faults.{Rose};
ghost use Rattle.decided_texts.specs.Refused.{gained};
ghost use Rattle.run_status.specs.Status.{IsAnswer};
ghost use Rattle.run_status.specs.Ways.{Printed};
ghost use Rattle.scan_run.specs.Run.{Ends};

mod adapters;
mod folder;
#[cfg(test)]
mod folder_tests;

use crate::adapters::{StdinSource, StdoutSink};
use crate::folder::FolderTree;
use node_tree::Steps;
use rx_text::{Patterns, RealPatterns};
use scan_run::{Status, run};
use scan_world::{Sink, Source, Tree};
use std::alloc::Global;
use std::marker::Brand;
use std::process::ExitCode;
use std::sync::ledger::{Blank, Ledger};
use std::{env, io};

fn main(rt: HostRuntime) -> io::Result<ExitCode> {
    let status = match words_of(&rt) {
        Ok(words) => {
            let mut tree = FolderTree::new(rt);
            let mut input = StdinSource::new(rt.stdin());
            let mut out = StdoutSink::new(rt.stdout());
            let mut patterns = RealPatterns::new(rt.alloc());
            counted::<_, _, _, _, Brand>(
                rt.alloc(),
                &words,
                &mut tree,
                &mut input,
                &mut out,
                &mut patterns,
                Blank::new(1),
            )
        }
        Err(status) => status,
    };
    // the status stays what it is where its line can't be written
    let _ = report(&rt, status);
    Ok(ExitCode::from(status.number()))
}

// The words after the program's name. Words that aren't UTF-8 are no words that the program understands.
fn words_of(rt: &HostRuntime) -> Result<Vec<String>, Status> {
    let given = match env::args(rt) {
        Ok(given) => given,
        Err(e) if e.kind() == io::ErrorKind::OutOfMemory => return Err(Status::Memory),
        Err(_) => return Err(Status::Usage),
    };
    let mut words = Vec::new(rt.alloc());
    for word in given.skip(1) {
        if words.push(word).is_err() {
            return Err(Status::Memory);
        }
    }
    Ok(words)
}

// Runs with a counter of its own.
fn counted<T: Tree, S: Source, K: Sink, P: Patterns, L: Ledger>(
    alloc: Global,
    words: &Vec<String>,
    tree: &mut T,
    input: &mut S,
    out: &mut K,
    patterns: &mut P,
    blank: Blank,
) -> Status
    requires name { blank.name ≡ L.name }
    requires parts { blank.parts ≡ L.parts }
    requires some { 0 < L.parts }
    ensures ends { IsAnswer result → Printed (Ends (map string_bytes words.now.items) (S.left input.old) (T.files tree.old) (gained (P.refusals patterns.old) (P.refusals patterns.new))) (K.written out.old) (K.written out.new) result }
    ensures tree_fault { result ≡ Status.TreeFault → Rose (T.faults tree.old) (T.faults tree.new) }
    ensures input_fault { result ≡ Status.InputFault → Rose (S.faults input.old) (S.faults input.new) }
    ensures output_fault { result ≡ Status.OutputFault → Rose (K.faults out.old) (K.faults out.new) }
{
    let mut steps = Steps::<L>::new(blank);
    run(alloc, words, tree, input, out, patterns, &mut steps)
}

// The line of a status on standard error.
fn report(rt: &impl Eprint, status: Status) -> io::Result<()> {
    match status {
        Status::Done | Status::Findings => Ok(()),
        Status::Usage => eprintln!(rt; "semscan: usage"),
        Status::Memory => eprintln!(rt; "semscan: out of memory"),
        Status::InputFault => eprintln!(rt; "semscan: input failed"),
        Status::OutputFault => eprintln!(rt; "semscan: output failed"),
        Status::TreeFault => eprintln!(rt; "semscan: folder failed"),
        Status::BadCommand(place) => eprintln!(rt; "semscan: bad command at {place}"),
        Status::OverLimit(_, count) => eprintln!(rt; "semscan: over limit {count}"),
        Status::TooMany(most) => eprintln!(rt; "semscan: more than {most}"),
        Status::NoSuchPath => eprintln!(rt; "semscan: no config"),
        Status::BadTarget => eprintln!(rt; "semscan: no tree"),
        Status::BadPattern => eprintln!(rt; "semscan: no pattern"),
    }
}

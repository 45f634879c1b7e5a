//! Command lines, in which spaces part the words, and the commands that they are.

use shown::{parted, same};
use std::alloc::{AllocError, Global};
use std::test::Fail;
use wire_words::{Command, Job, read_words};

// The fields of a job, with a dash where it has no store.
fn shown(alloc: Global, name: &str, job: &Job<'_>) -> Result<String, AllocError> {
    let store = job.store.unwrap_or("-");
    format!(in alloc;
        "{name} {} {} {} {} {} {store}",
        job.flag, job.most, job.config, job.prefix, job.trace
    )
}

// The command of a line, or `none`.
fn read(alloc: Global, line: &str) -> Result<String, AllocError> {
    let mut words = Vec::new(alloc);
    for word in line.split(' ') {
        words.push(String::from_str(alloc, word)?)?;
    }
    match read_words(&words) {
        Some(Command::Match(lang, pattern)) => format!(in alloc; "match {lang:?} {pattern}"),
        Some(Command::Check) => String::from_str(alloc, "check"),
        Some(Command::Scan(job)) => shown(alloc, "scan", &job),
        Some(Command::Fix(job)) => shown(alloc, "fix", &job),
        Some(Command::Session(most, trace)) => format!(in alloc; "session {most} {trace}"),
        Some(Command::Drill(count)) => format!(in alloc; "drill {count}"),
        None => String::from_str(alloc, "none"),
    }
}

#[test]
fn reads_words(rt: HostRuntime) -> Result<(), Fail> {
    let rows = [
        "match json 1 ⇒ match Json 1",
        "match python f($X) ⇒ match Python f($X)",
        "match c --max ⇒ match C --max",
        // Options in any order.
        "scan --config r.yaml src ⇒ scan false 50000 r.yaml src false -",
        "scan --config r.yaml --max 3 src ⇒ scan false 3 r.yaml src false -",
        "scan --error --max 50000 --config a/b . ⇒ scan true 50000 a/b . false -",
        "scan --max 0 --config r.yaml --error a/b ⇒ scan true 0 r.yaml a/b false -",
        "scan --config --error src ⇒ scan false 50000 --error src false -",
        "scan --error --config --error --error ⇒ scan true 50000 --error --error false -",
        "scan --config --config --config ⇒ scan false 50000 --config --config false -",
        "scan --trace --store s --config r.yaml src ⇒ scan false 50000 r.yaml src true s",
        "scan --store --trace --config r.yaml --error . ⇒ scan true 50000 r.yaml . false --trace",
        "scan --config r.yaml --store src src ⇒ scan false 50000 r.yaml src false src",
        "fix --config r.yaml src ⇒ fix false 50000 r.yaml src false -",
        "fix --trace --dryrun --max 7 --config r.yaml . ⇒ fix true 7 r.yaml . true -",
        "session ⇒ session 50000 false",
        "session --trace --max 0 ⇒ session 0 true",
        "session --max 50000 ⇒ session 50000 false",
        "drill 1 ⇒ drill 1",
        "drill 10000 ⇒ drill 10000",
        "check json ⇒ check",
        "scan --config r.yaml --store r.yaml src ⇒ none",
        "scan --store r.yaml --config r.yaml src ⇒ none",
        "scan --store a/ --config r.yaml src ⇒ none",
        "scan --store a --store b --config r.yaml src ⇒ none",
        "scan --trace --trace --config r.yaml src ⇒ none",
        "fix --error --config r.yaml src ⇒ none",
        "fix --store s --config r.yaml src ⇒ none",
        "fix --dryrun --dryrun --config r.yaml src ⇒ none",
        "fix --dryrun src ⇒ none",
        "session --max 50001 ⇒ none",
        "session --trace --trace ⇒ none",
        "session --error ⇒ none",
        "session --max ⇒ none",
        "session . ⇒ none",
        "drill ⇒ none",
        "drill 0 ⇒ none",
        "drill 10001 ⇒ none",
        "drill 01 ⇒ none",
        "drill 1 2 ⇒ none",
        "check ⇒ none",
        "check python ⇒ none",
        "check json x ⇒ none",
        "scan ⇒ none",
        "scan src ⇒ none",
        "scan --config ⇒ none",
        "scan --config r.yaml ⇒ none",
        "scan --error src ⇒ none",
        "scan --error --error --config r.yaml src ⇒ none",
        "scan --config a --config b src ⇒ none",
        "scan --max 3 --max 3 --config r.yaml src ⇒ none",
        "scan --max 01 --config r.yaml src ⇒ none",
        "scan --max 00 --config r.yaml src ⇒ none",
        "scan --max +1 --config r.yaml src ⇒ none",
        "scan --max -1 --config r.yaml src ⇒ none",
        "scan --max  --config r.yaml src ⇒ none",
        "scan --max 50001 --config r.yaml src ⇒ none",
        "scan --max 18446744073709551617 --config r.yaml src ⇒ none",
        "scan --max --config r.yaml src ⇒ none",
        "scan --dryrun --config r.yaml src ⇒ none",
        "scan --config=r.yaml src ⇒ none",
        "scan --config . src ⇒ none",
        "scan --config /x src ⇒ none",
        "scan --config a/ src ⇒ none",
        "scan --config ../x src ⇒ none",
        "scan --config r.yaml /src ⇒ none",
        "scan --config r.yaml .. ⇒ none",
        "scan src --config r.yaml ⇒ none",
        "scan --config r.yaml src --error src ⇒ none",
        "Scan --config r.yaml src ⇒ none",
        "match ⇒ none",
        "match json ⇒ none",
        "match regex x ⇒ none",
        "match JSON 1 ⇒ none",
        "match json 1 2 ⇒ none",
        "matches json 1 ⇒ none",
        "help ⇒ none",
    ];
    for row in rows {
        let (line, wanted) = parted(row);
        same(line, read(rt.alloc(), line)?.as_str(), wanted)?;
    }
    assert!(rt; read_words(&Vec::new(rt.alloc())).is_none());
    Ok(())
}

//! A way to show what a stream is read as.

use node_tree::{Bytes, List, Memory};
use scan_world::MemorySource;
use std::alloc::{AllocError, Global};
use wire_stream::{Feed, Wire, WireFault, next_command};

// A source of these bytes, of which it hands out so many a read, and whose reads of these numbers fail.
pub fn source(
    alloc: Global,
    bytes: &[u8],
    most: u32,
    failing: &[u32],
) -> Result<MemorySource, Memory> {
    let bytes = Bytes::from_slice(alloc, bytes)?;
    let mut calls = List::new(alloc);
    for call in failing {
        calls.push(*call)?;
    }
    Ok(MemorySource::new(bytes, most.max(1), calls))
}

// A command as a line: its word, its text, and how many bytes of its body are kept.
fn command(alloc: Global, wire: &Wire) -> Result<String, AllocError> {
    match wire {
        Wire::Put(path, body) => format!(in alloc; "put {} {}", path.as_str(), body.len()),
        Wire::Del(path) => format!(in alloc; "del {}", path.as_str()),
        Wire::Rule(name, body) => format!(in alloc; "rule {} {}", name.as_str(), body.len()),
        Wire::Unrule(name) => format!(in alloc; "unrule {}", name.as_str()),
        Wire::Sync(prefix) => format!(in alloc; "sync {}", prefix.as_str()),
        Wire::Scan => String::from_str(alloc, "scan"),
        Wire::Fix => String::from_str(alloc, "fix"),
        Wire::End => String::from_str(alloc, "end"),
    }
}

fn fault(alloc: Global, fault: WireFault) -> Result<String, AllocError> {
    match fault {
        WireFault::Memory => String::from_str(alloc, "memory"),
        WireFault::Failed => String::from_str(alloc, "failed"),
        WireFault::Bad(at) => format!(in alloc; "bad at {at}"),
        WireFault::Stream(number) => format!(in alloc; "over {number}"),
    }
}

/// The commands of a stream up to `end` or a fault, with a semicolon after each.
pub fn read(alloc: Global, bytes: &[u8], most: u32, failing: &[u32]) -> Result<String, AllocError> {
    let mut shown = String::new(alloc);
    let (Ok(mut source), Ok(mut feed)) = (source(alloc, bytes, most, failing), Feed::new(alloc))
    else {
        return Err(AllocError);
    };
    for _ in 0..100 {
        match next_command(&mut feed, &mut source) {
            Ok(wire) => {
                let line = command(alloc, &wire)?;
                shown.push_str(line.as_str())?;
                shown.push_str(";")?;
                if matches!(wire, Wire::End) {
                    return Ok(shown);
                }
            }
            Err(why) => {
                let line = fault(alloc, why)?;
                shown.push_str(line.as_str())?;
                return Ok(shown);
            }
        }
    }
    Ok(shown)
}

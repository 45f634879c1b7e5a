//! A stream that is read command by command.

ghost use Rattle.std.specs.Prelude.{◌≡◌, [], List, ℕ, true, false, IfOk, IfErr, OnOk, OnErr, IsErrOf};
ghost use Rattle.wire_stream.specs.Lines.{Line};
ghost use Rattle.wire_stream.specs.Commands.{Begins};
ghost use Rattle.wire_stream.specs.Fronts.{Waits};
ghost use Rattle.wire_stream.specs.Feeds.{FeedState, Next, IsFault, HasWireCause, fault_of};

use crate::command::read_command;
use crate::hand::Hand;
use crate::trouble::Trouble;
use crate::wire::{Wire, WireFault};
use node_tree::Memory;
use scan_world::Source;
use std::alloc::Global;
use std::marker::Model;

// The most bytes that a stream may have up to its end.
const MOST_STREAM: u64 = 268_435_456;

/// A stream that is read command by command.
#[derive(Drop)]
pub struct Feed {
    alloc: Global,
    hand: Hand,
    place: u64,
    failed: bool,
}

impl Model for Feed {
    ghost use Rattle.std.specs.Prelude.{◌≤◌};
    ghost use Rattle.wire_stream.specs.Feeds.{FeedState};

    ghost Value = { FeedState };

    ghost view = { λ f. record { place = f.place; hand = f.hand; failed = f.failed } };

    ghost invariant = { λ f. f.place ≤ 268435456 };
}

impl Feed {
    /// A stream of which nothing was read.
    pub fn new(alloc: Global) -> Result<Feed, Memory>
        ensures { IfOk result (λ f. f ≡ record { place = 0; hand = []; failed = false }) }
    {
        let hand = Hand::new(alloc)?;
        Ok(Feed {
            alloc,
            hand,
            place: 0,
            failed: false,
        })
    }
}

/// The fault of a stream whose command at this place was not read.
fn fault(trouble: Trouble, place: u64) -> WireFault
    ensures { result ≡ fault_of trouble place }
{
    match trouble {
        Trouble::Memory => WireFault::Memory,
        Trouble::Failed => WireFault::Failed,
        Trouble::Bad => WireFault::Bad(place),
    }
}

/// The next command of the stream. A feed that has given a fault is not asked again.
pub fn next_command<S: Source>(feed: &mut Feed, input: &mut S) -> Result<Wire, WireFault>
    requires { feed.old.failed ≡ false }
    ensures next { IfOk result (Next (S.left input.old) (S.left input.new) feed.old feed.new) }
    ensures fault { IfErr result (IsFault (S.left input.old) feed.old) }
    ensures waits { IsErrOf result WireFault.Failed → Waits (S.left input.old) (S.left input.new) feed.old.hand }
    ensures cause { HasWireCause (S.faults input.old) (S.faults input.new) result }
    ensures going { OnOk result (feed.new.failed ≡ false) }
    ensures stopped { OnErr result ((feed.new.place ≡ feed.old.place) × (feed.new.failed ≡ true)) }
{
    feed.failed = true;
    match read_command(feed.alloc, &mut feed.hand, input) {
        Ok((wire, count)) => {
            let place = feed.place + count;
            if place > MOST_STREAM {
                return Err(WireFault::Stream(MOST_STREAM + 1));
            }
            feed.place = place;
            feed.failed = false;
            Ok(wire)
        }
        Err(trouble) => Err(fault(trouble, feed.place)),
    }
}

/// No command begins another: a stream begins with at most one.
pub fn one_command()
    ensures { (stream : List ℕ) (a b : Line) (x y r s : List ℕ) → Begins stream a x r → Begins stream b y s → (a ≡ b) × (x ≡ y) × (r ≡ s) }
{}

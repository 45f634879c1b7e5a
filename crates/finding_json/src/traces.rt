//! Traces as they are sent to a writer.

ghost use Rattle.std.specs.Prelude.{◌≡◌, OnOk};
ghost use Rattle.serde_json.specs.Events.{SendsValue};
ghost use Rattle.finding_json.specs.Reports.{role_word, stop_data, stops_data, SendsTrace};

use graph_form::Role;
use serde::Serializer;

// The word of a role.
fn word_of(role: Role) -> &'static str
    ensures { result.now ≡ role_word role }
{
    match role {
        Role::Entry => "Entry",
        Role::Exit => "Exit",
        Role::Head => "Head",
        Role::Init => "Init",
        Role::Test => "Test",
        Role::Step => "Step",
    }
}

// A point of a trace: where its node begins, and its role.
fn send_stop<S: Serializer>(stop: &(u32, Role), out: &mut S) -> Result<(), S::Error>
    ensures { OnOk result
        (SendsValue (stop_data stop.now) (S.written out.old) (S.written out.new)) }
{
    out.begin_seq(Some(2))?;
    out.u64(u64::from(stop.0))?;
    out.str(word_of(stop.1))?;
    out.end_seq()
}

// The points in order.
fn send_stops<S: Serializer>(stops: &[(u32, Role)], out: &mut S) -> Result<(), S::Error>
    ensures { OnOk result
        (SendsValue (stops_data stops.now) (S.written out.old) (S.written out.new)) }
{
    out.begin_seq(Some(stops.len()))?;
    for stop in stops {
        send_stop(stop, out)?;
    }
    out.end_seq()
}

/// Sends the trace by its key, unless it is empty.
pub fn send_trace<S: Serializer>(stops: &[(u32, Role)], out: &mut S) -> Result<(), S::Error>
    ensures { OnOk result (SendsTrace stops.now (S.written out.old) (S.written out.new)) }
{
    if stops.is_empty() {
        return Ok(());
    }
    out.key("trace")?;
    send_stops(stops, out)
}

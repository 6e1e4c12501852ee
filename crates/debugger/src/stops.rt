//! The stops of a session.
ghost use Rattle.std.specs.Prelude.{◌≡◌, ◌≤◌, ◌++◌, [], length, Bool, IfOk, IfErr, OnOk, OnErr, string_bytes};
ghost use Rattle.std.specs.List.{list_any};
ghost use Rattle.disassembler.specs.Shown.{name_or};
ghost use Rattle.asm_names.specs.Registers.{register_name};
ghost use Rattle.debugger.specs.Reply.{is_same_stop, stop_line, stops_after, stops_text, watched_text};
ghost use Rattle.arrayvec.specs.ArrayString.{array_string_len};

use arrayvec::ArrayString;
use asm_names::{register_name, scr_name};
use debug_commands::{DebugFault, SetStops, Stop, Watched};
use origins::Place;
use std::alloc::{AllocError, Global};
use texts::Piece::{Address, Decimal, Text};
use texts::{append, text};

/// The name of a register, none where there is no such register.
#[tactic(auto, using(disassembler::specs::LengthLaws::register_name_short))]
fn name_of(number: u8) -> &'static str
    ensures text { result.now ≡ name_or [] (register_name Bool.true number) }
    ensures short { length result.now ≤ 8 }
{
    if number < 32 {
        register_name(number, true)
    } else {
        ""
    }
}

/// What is watched for a change.
#[tactic(auto, using(disassembler::specs::LengthLaws::scr_name_short))]
fn watched_text(watched: Watched) -> ArrayString<37>
    ensures text { result.bytes ≡ watched_text watched }
    ensures within { array_string_len result ≤ 37 }
{
    match watched {
        Watched::Held(Place::Register(number)) => text(&[Text(name_of(number))]),
        Watched::Held(Place::Special(number)) => match scr_name(number) {
            Some(name) => text(&[Text(name)]),
            None => ArrayString::new(),
        },
        Watched::Held(Place::Granule(address)) => text(&[Address(address)]),
        Watched::Bytes { address, count } => {
            text(&[Address(address), Text(" "), Decimal(count)])
        }
    }
}

/// The line of a stop.
fn stop_line(stop: Stop) -> ArrayString<46>
    ensures text { result.bytes ≡ stop_line stop }
{
    match stop {
        Stop::Address(address) => text(&[Text("at "), Address(address), Text("\n")]),
        Stop::Trap => text(&[Text("trap\n")]),
        Stop::Changed(watched) => text(&[
            Text("changed "),
            Text(watched_text(watched).as_str()),
            Text("\n"),
        ]),
    }
}

/// Appends the lines of stops to a text.
pub(crate) fn append_stops(text: &mut String, stops: &[Stop]) -> Result<(), AllocError>
    ensures { OnOk result (string_bytes text.new ≡ string_bytes text.old ++ stops_text stops.now) }
{
    match stops {
        [] => Ok(()),
        [first, rest @ ..] => {
            append(text, &[Text(stop_line(*first).as_str())])?;
            append_stops(text, rest)
        }
    }
}

/// Whether two stops are the same: their lines are.
fn is_same_stop(stop: Stop, other: Stop) -> bool
    ensures { result ≡ is_same_stop stop other }
{
    stop_line(stop).as_str() == stop_line(other).as_str()
}

/// Whether a stop is one of others.
fn is_one_of(stop: Stop, stops: &[Stop]) -> bool
    ensures { result ≡ list_any (is_same_stop stop) stops.now }
{
    stops.iter().any(|other| is_same_stop(stop, *other))
}

/// One stop more after the others, unless it is one of them; and the text of all.
fn add_stop(alloc: Global, stops: &mut Vec<Stop>, stop: Stop) -> Result<String, DebugFault>
    ensures text { IfOk result (λ text. string_bytes text ≡ stops_text (stops_after (SetStops.Add stop) stops.old.items)) }
    ensures stops { OnOk result (stops.new.items ≡ stops_after (SetStops.Add stop) stops.old.items) }
    ensures err { IfErr result (λ fault. fault ≡ DebugFault.B4) }
    ensures same { OnErr result (stops.new.items ≡ stops.old.items) }
{
    let mut text = String::new(alloc);
    append_stops(&mut text, stops)?;
    if !is_one_of(stop, stops) {
        append(&mut text, &[Text(stop_line(stop).as_str())])?;
        if stops.push(stop).is_err() {
            return Err(DebugFault::B4);
        }
    }
    Ok(text)
}

/// Sets the stops, and answers the text of all: B4 where there is no memory, and then they stay.
pub(crate) fn set_stops(
    alloc: Global,
    stops: &mut Vec<Stop>,
    set: SetStops,
) -> Result<String, DebugFault>
    ensures text { IfOk result (λ text. string_bytes text ≡ stops_text (stops_after set stops.old.items)) }
    ensures stops { OnOk result (stops.new.items ≡ stops_after set stops.old.items) }
    ensures err { IfErr result (λ fault. fault ≡ DebugFault.B4) }
    ensures same { OnErr result (stops.new.items ≡ stops.old.items) }
{
    match set {
        SetStops::Add(stop) => add_stop(alloc, stops, stop),
        SetStops::Clear => {
            stops.clear();
            Ok(String::new(alloc))
        }
    }
}

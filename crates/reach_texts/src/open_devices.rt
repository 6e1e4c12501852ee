//! The registers of the devices that members open, a line each.
ghost use Rattle.std.specs.Prelude.{◌≡◌, ◌≤◌, length};
ghost use Rattle.arrayvec.specs.ArrayString.{array_string_len};
ghost use Rattle.reached.specs.Order.{seen_members};
ghost use Rattle.reach_texts.specs.Summary.{device_line, device_lines, is_let};

use crate::asked::first_that;
use arrayvec::ArrayString;
use cap_bounds::CapRep;
use devices::RECEIVE;
use reach::{CONTROL, HALT, May, STATUS, TIMER, TIMER_COMPARE, TRANSMIT};
use reached::Member;
use texts::Piece::Text;
use texts::text;

/// Whether some member lets code do what is asked.
pub(crate) fn is_let<C: CapRep>(members: &[Member<C>], may: May) -> bool
    ensures { result ≡ is_let may (seen_members C.value members.now) }
{
    first_that(members, may).is_some()
}

/// The line of a register, by whether some member opens its first byte to loads and to stores.
#[tactic(auto, unfolding(crate::specs::Summary::access_line))]
fn device_line<C: CapRep>(members: &[Member<C>], name: &str, address: u64) -> ArrayString<20>
    requires { length name.now ≤ 8 }
    ensures text { result.bytes ≡ device_line name.now address (seen_members C.value members.now) }
    ensures within { array_string_len result ≤ 20 }
{
    let loads = is_let(members, May::Load { address, count: 1 });
    let stores = is_let(members, May::Store { address, count: 1 });
    match (loads, stores) {
        (true, true) => text(&[Text("device "), Text(name), Text(" RW\n")]),
        (true, false) => text(&[Text("device "), Text(name), Text(" R-\n")]),
        (false, true) => text(&[Text("device "), Text(name), Text(" -W\n")]),
        (false, false) => ArrayString::new(),
    }
}

/// The lines of the registers, in the order of the map.
#[tactic(auto, unfolding(crate::specs::Summary::device_lines))]
pub(crate) fn device_lines<C: CapRep>(members: &[Member<C>]) -> ArrayString<140>
    ensures { result.bytes ≡ device_lines (seen_members C.value members.now) }
{
    text(&[
        Text(device_line(members, "halt", HALT).as_str()),
        Text(device_line(members, "mtimecmp", TIMER_COMPARE).as_str()),
        Text(device_line(members, "mtime", TIMER).as_str()),
        Text(device_line(members, "transmit", TRANSMIT).as_str()),
        Text(device_line(members, "receive", RECEIVE).as_str()),
        Text(device_line(members, "status", STATUS).as_str()),
        Text(device_line(members, "control", CONTROL).as_str()),
    ])
}

//! What the code in a range can do, as a rule of a policy.
ghost use Rattle.std.specs.Prelude.{◌≡◌, ◌++◌, OnOk, string_bytes};
ghost use Rattle.reached.specs.Links.{values};
ghost use Rattle.policy_audit.specs.Entries.{bytes_part, code_part, enter_part, entry_rule, ranges_part, rights_part, yes_or_no};

use crate::ranges::{append_within, range_text};
use crate::types::append_types;
use cap_bounds::CapRep;
use policy::{entered_by, may_halt, may_seal, may_send, may_set_timer, may_use_system};
use reach::{Range, Reach, Right};
use std::alloc::{AllocError, Global};
use texts::Piece::Text;
use texts::append;

/// Appends the code that a rule is about.
#[tactic(auto, unfolding(crate::specs::Entries::code_part))]
fn append_code(text: &mut String, code: Range) -> Result<(), AllocError>
    ensures { OnOk result (string_bytes text.new ≡ string_bytes text.old ++ code_part code) }
{
    let range = range_text(code);
    append(
        text,
        &[Text("when pc in "), Text(range.as_str()), Text(": ")],
    )
}

/// Appends the addresses that a reach opens to a right, after a name.
#[tactic(auto, unfolding(crate::specs::Entries::bytes_part))]
fn append_bytes<C: CapRep>(
    text: &mut String,
    alloc: Global,
    name: &str,
    reach: &Reach<C>,
    right: Right,
) -> Result<(), AllocError>
    ensures { OnOk result (string_bytes text.new
        ≡ string_bytes text.old ++ bytes_part name.now right (values C.value reach.now)) }
{
    let ranges = reach.ranges(alloc, right)?;
    append(text, &[Text(name)])?;
    append_within(text, &ranges)
}

/// Appends where jumps through the seals of a reach lead.
#[tactic(auto, unfolding(crate::specs::Entries::enter_part))]
fn append_entered<C: CapRep>(
    text: &mut String,
    alloc: Global,
    reach: &Reach<C>,
) -> Result<(), AllocError>
    ensures { OnOk result (string_bytes text.new ≡ string_bytes text.old ++ enter_part (values C.value reach.now)) }
{
    let ranges = entered_by(alloc, reach.members())?;
    append(text, &[Text(", enter")])?;
    append_within(text, &ranges)
}

/// Appends the addresses that a reach opens, and those that it lets code enter.
#[tactic(auto, unfolding(crate::specs::Entries::ranges_part))]
fn append_ranges<C: CapRep>(
    text: &mut String,
    alloc: Global,
    reach: &Reach<C>,
) -> Result<(), AllocError>
    ensures { OnOk result (string_bytes text.new ≡ string_bytes text.old ++ ranges_part (values C.value reach.now)) }
{
    append_bytes(text, alloc, "store", reach, Right::Store)?;
    append_bytes(text, alloc, ", load", reach, Right::Load)?;
    append_bytes(text, alloc, ", execute", reach, Right::Execute)?;
    append_bytes(text, alloc, ", keep", reach, Right::Keep)?;
    append_entered(text, alloc, reach)
}

fn yes_or_no(yes: bool) -> &'static str
    ensures { result.now ≡ yes_or_no yes }
{
    if yes { "yes" } else { "no" }
}

/// Appends which registers of the devices a reach opens, and whether it opens the system registers and object types that are not reserved.
#[tactic(auto, unfolding(crate::specs::Entries::rights_part))]
fn append_rights<C: CapRep>(
    text: &mut String,
    alloc: Global,
    reach: &Reach<C>,
) -> Result<(), AllocError>
    ensures { OnOk result (string_bytes text.new ≡ string_bytes text.old ++ rights_part (values C.value reach.now)) }
{
    let seal = may_seal(alloc, reach)?;
    append(
        text,
        &[
            Text(", transmit "),
            Text(yes_or_no(may_send(reach))),
            Text(", halt "),
            Text(yes_or_no(may_halt(reach))),
            Text(", timer "),
            Text(yes_or_no(may_set_timer(reach))),
            Text(", system "),
            Text(yes_or_no(may_use_system(reach))),
            Text(", seal "),
            Text(yes_or_no(seal)),
        ],
    )
}

/// Appends the rule of a range of code, by what is reachable in it.
#[tactic(auto, unfolding(crate::specs::Entries::entry_rule))]
pub(crate) fn append_rule<C: CapRep>(
    text: &mut String,
    alloc: Global,
    code: Range,
    reach: &Reach<C>,
) -> Result<(), AllocError>
    ensures { OnOk result (string_bytes text.new ≡ string_bytes text.old ++ entry_rule code (values C.value reach.now)) }
{
    append_code(text, code)?;
    append_ranges(text, alloc, reach)?;
    append_rights(text, alloc, reach)?;
    append_types(text, alloc, reach.members())
}

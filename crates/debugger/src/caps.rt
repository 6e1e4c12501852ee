//! The capabilities that RAM holds, as lines of text.
ghost use Rattle.std.specs.Prelude.{◌≡◌, ◌++◌, true, OnOk, string_bytes};
ghost use Rattle.tagged_memory.specs.Memory.{has_tag};
ghost use Rattle.steps.specs.State.{HoldsCapabilities};
ghost use Rattle.debugger.specs.Reply.{cap_line, cap_lines};

use base::ram;
use cap_bounds::CapRep;
use explain::value_text;
use std::alloc::AllocError;
use tagged_memory::Memory;
use texts::Piece::{Address, Text};
use texts::append;

/// The bytes of a line: an address, a space, a capability's text and a line feed.
const LINE_BYTES: usize = 99;

/// Appends the line of a tagged granule to a text: its address, and the capability that it holds.
#[tactic(auto, using(crate::proofs::CapLines::no_fault))]
fn append_cap<C: CapRep>(text: &mut String, memory: &Memory, address: u64) -> Result<(), AllocError>
    requires tagged { has_tag memory.now address ≡ true }
    requires well_formed { HoldsCapabilities memory.now }
    ensures { OnOk result (string_bytes text.new ≡ string_bytes text.old ++ cap_line memory.now address) }
{
    memory.is_sound();
    let (word, tag) = memory.load_cap(address);
    let shown = value_text(C::from_word(word, tag));
    append(
        text,
        &[
            Address(address),
            Text(" "),
            Text(shown.as_str()),
            Text("\n"),
        ],
    )
}

/// Appends the lines of all tagged granules to a text, in ascending order. Room for them is made before the first.
pub(crate) fn append_caps<C: CapRep>(text: &mut String, memory: &Memory) -> Result<(), AllocError>
    requires { HoldsCapabilities memory.now }
    ensures { OnOk result (string_bytes text.new ≡ string_bytes text.old ++ cap_lines memory.now) }
{
    let end = ram::BASE + ram::PAGE_BYTES * u64::from(memory.pages());
    let lines = memory.tagged(ram::BASE, end).count();
    text.reserve(lines.saturating_mul(LINE_BYTES))?;
    for address in memory.tagged(ram::BASE, end) {
        append_cap::<C>(text, memory, address)?;
    }
    Ok(())
}

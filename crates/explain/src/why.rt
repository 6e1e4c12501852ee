//! The whole text.
ghost use Rattle.std.specs.Prelude.{◌≡◌, ◌%◌, ◌++◌, OnOk, string_bytes, true};
ghost use Rattle.tagged_memory.specs.Memory.{is_in_ram, number_at};
ghost use Rattle.explain.specs.WhyText.{instruction_text, running_text, why_text};

use crate::effect::effect_text;
use crate::line::put_word_line;
use crate::stages::append_stages;
use base::{INSTRUCTION_BYTES, Size};
use cap_bounds::CapRep;
use hart::Hart;
use std::alloc::AllocError;
use symbols::Symbols;
use tagged_memory::Memory;
use texts::Piece::{Decimal, Text};
use texts::append;

/// The word at an address in RAM.
#[tactic(auto, unfolding(tagged_memory::specs::Memory::place_fault))]
pub(crate) fn word_at(memory: &Memory, address: u64) -> u32
    requires aligned { address % 4 ≡ 0 }
    requires inside { is_in_ram memory.now address 4 ≡ true }
    ensures { result ≡ number_at memory.now address 4 }
{
    memory.load(address, Size::Word) as u32
}

/// Appends the line of the instruction at PCC to a text, where there is RAM.
#[tactic(auto, unfolding(crate::specs::WhyText::instruction_text))]
fn append_instruction<C: CapRep>(
    text: &mut String,
    symbols: &Symbols,
    hart: &Hart<C>,
) -> Result<(), AllocError>
    ensures { OnOk result (string_bytes text.new ≡ string_bytes text.old ++ instruction_text symbols.now hart.now) }
{
    let pcc = hart.scrs().pcc();
    let address = pcc.address();
    if hart.memory().is_in_ram(address, INSTRUCTION_BYTES) {
        let word = word_at(hart.memory(), address);
        put_word_line(text, symbols, address, word, pcc.flag())
    } else {
        Ok(())
    }
}

/// Appends what the next step will do, and why, to a text.
fn append_running<C: CapRep>(
    text: &mut String,
    symbols: &Symbols,
    hart: &Hart<C>,
) -> Result<(), AllocError>
    ensures { OnOk result (string_bytes text.new ≡ string_bytes text.old ++ running_text symbols.now hart.now) }
{
    append_instruction(text, symbols, hart)?;
    let planned = hart.next();
    append_stages(text, symbols, hart, planned.fetched)?;
    let effect = effect_text(Some(symbols), &planned.effect);
    append(text, &[Text("effect: "), Text(effect.as_str()), Text("\n")])
}

/// Appends what the next step will do, and why, to a text: PCC's instruction, the stages that it asks, and the effect; or *halted*.
/// After an address stands its label.
///
/// # Errors
///
/// Where there is no memory for the text.
#[tactic(auto, unfolding(crate::specs::WhyText::why_text))]
pub fn put_why<C: CapRep>(
    text: &mut String,
    symbols: &Symbols,
    hart: &Hart<C>,
) -> Result<(), AllocError>
    ensures { OnOk result (string_bytes text.new ≡ string_bytes text.old ++ why_text symbols.now hart.now) }
{
    match hart.halted() {
        Some(number) => append(text, &[Text("halted "), Decimal(number), Text("\n")]),
        None => append_running(text, symbols, hart),
    }
}

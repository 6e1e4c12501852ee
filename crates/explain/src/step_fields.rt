//! What objects say of a step.

ghost use Rattle.std.specs.Prelude.{◌≡◌, ◌++◌, OnOk, codes};
ghost use Rattle.cap_bounds.specs.CapValue.{value_flag};
ghost use Rattle.steps.specs.Applying.{meant};
ghost use Rattle.texts.specs.Hex.{hex_of};
ghost use Rattle.objects.specs.Items.{text_field};
ghost use Rattle.explain.specs.EffectText.{effect_text as effect_text_of};
ghost use Rattle.explain.specs.StepFields.{effect_fields, instruction_fields, trap_field, word_fields};

use crate::effect::effect_text;
use crate::stages::here;
use crate::trap::trap_text;
use arrayvec::ArrayString;
use cap_bounds::CapRep;
use disassembler::disassemble;
use hart::Hart;
use objects::{Item, Writer, put, put_place};
use std::alloc::AllocError;
use steps::Effect;
use symbols::Symbols;
use texts::{pieces, text};

/// A word as a text: `0x` and 8 digits.
fn word_digits(word: u32) -> ArrayString<10>
    ensures { result.bytes ≡ codes "0x" ++ hex_of 8 word }
{
    text(&pieces!["0x" Hexadecimal(8, u128::from(word))])
}

/// Says a word and its text in a mode, where there is one.
#[tactic(auto, unfolding(crate::specs::StepFields::word_fields))]
fn put_word(object: &mut Writer, mode: bool, word: Option<u32>) -> Result<(), AllocError>
    ensures tokens { OnOk result (object.new.tokens ≡ object.old.tokens ++ word_fields mode word) }
    ensures alone { object.new.before ≡ object.old.before }
{
    match word {
        Some(word) => {
            let digits = word_digits(word);
            let shown = disassemble(word, mode);
            put(
                object,
                &[
                    Item::Text("word", digits.as_str()),
                    Item::Text("instruction", shown.as_str()),
                ],
            )
        }
        None => put(object, &[Item::Null("word"), Item::Null("instruction")]),
    }
}

/// The mode that PCC says.
fn mode<C: CapRep>(hart: &Hart<C>) -> bool
    ensures { result ≡ value_flag hart.now.scrs.pcc }
{
    hart.scrs().pcc().flag()
}

/// Says where PCC is, and a word there and its text in PCC's mode, where there is one.
#[tactic(auto, unfolding(crate::specs::StepFields::instruction_fields), using(objects::specs::ItemLaws::said_two))]
pub(crate) fn put_instruction<C: CapRep>(
    object: &mut Writer,
    symbols: &Symbols,
    hart: &Hart<C>,
    word: Option<u32>,
) -> Result<(), AllocError>
    ensures tokens { OnOk result (object.new.tokens ≡ object.old.tokens ++ instruction_fields symbols.now word hart.now) }
    ensures alone { object.new.before ≡ object.old.before }
{
    put_place(object, "pcc", symbols, here(hart))?;
    put_word(object, mode(hart), word)
}

/// Says the trap that an effect is, if it is one.
#[tactic(auto, unfolding(crate::specs::StepFields::trap_field))]
fn put_trap<C: CapRep>(object: &mut Writer, effect: &Effect<C>) -> Result<(), AllocError>
    ensures tokens { OnOk result (object.new.tokens ≡ object.old.tokens ++ trap_field (meant C.value effect.now)) }
    ensures alone { object.new.before ≡ object.old.before }
{
    match effect {
        Effect::Trap(fault) => {
            let words = trap_text(fault.mcause, fault.mtval);
            put(
                object,
                &[
                    Item::Begin("trap"),
                    Item::Address("mcause", fault.mcause),
                    Item::Address("mtval", fault.mtval),
                    Item::Text("words", words.as_str()),
                    Item::End,
                ],
            )
        }
        _ => put(object, &[Item::Null("trap")]),
    }
}

/// Says what an effect changes, as a text.
fn put_change<C: CapRep>(
    object: &mut Writer,
    symbols: &Symbols,
    effect: &Effect<C>,
) -> Result<(), AllocError>
    ensures tokens { OnOk result (object.new.tokens
        ≡ object.old.tokens ++ text_field (codes "effect") (effect_text_of symbols.now (meant C.value effect.now))) }
    ensures alone { object.new.before ≡ object.old.before }
{
    let change = effect_text(Some(symbols), effect);
    put(object, &[Item::Text("effect", change.as_str())])
}

/// Says what an effect changes, as a text, and the trap that it is, if it is one.
#[tactic(auto, unfolding(crate::specs::StepFields::effect_fields), using(objects::specs::ItemLaws::said_two))]
pub(crate) fn put_effect<C: CapRep>(
    object: &mut Writer,
    symbols: &Symbols,
    effect: &Effect<C>,
) -> Result<(), AllocError>
    ensures tokens { OnOk result (object.new.tokens ≡ object.old.tokens ++ effect_fields symbols.now (meant C.value effect.now)) }
    ensures alone { object.new.before ≡ object.old.before }
{
    put_change(object, symbols, effect)?;
    put_trap(object, effect)
}

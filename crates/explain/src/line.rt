//! Lines of words at addresses, and of traces, with labels where there is a table of symbols.
ghost use Rattle.std.specs.Prelude.{◌≡◌, ◌++◌, OnOk, string_bytes};
ghost use Rattle.std.specs.Option.{option_copied};
ghost use Rattle.steps.specs.Applying.{IsPlanned};
ghost use Rattle.steps.specs.Step.{step_fetched};
ghost use Rattle.symbols.specs.Labels.{table_of};
ghost use Rattle.explain.specs.TraceLine as spec;
ghost use Rattle.explain.specs.WordLine.{labelled_word};

use crate::effect::effect_text;
use arrayvec::ArrayString;
use cap_bounds::CapRep;
use disassembler::disassemble;
use hart::{Hart, Planned};
use std::alloc::AllocError;
use steps::Fetched;
use symbols::{Symbols, labelled};
use texts::Piece::Text;
use texts::{append, pieces, text};

/// Appends the line of a word at an address to a text: the address with its label, the word, its text in integer or capability mode, and
/// the line of a source that places it, where that is known.
///
/// # Errors
///
/// Out of memory.
pub fn put_word_line(
    text: &mut String,
    symbols: &Symbols,
    address: u64,
    word: u32,
    mode: bool,
) -> Result<(), AllocError>
    ensures { OnOk result (string_bytes text.new ≡ string_bytes text.old ++ labelled_word symbols.now mode address word) }
{
    let place = labelled(Some(symbols), address);
    let shown = disassemble(word, mode);
    let source = symbols.source_of(address);
    let line = pieces![
        Text(place.as_str()) " " Hexadecimal(8, u128::from(word)) " " Text(shown.as_str())
        Text(source.as_str()) "\n"
    ];
    append(text, &line)
}

/// The text of a line.
pub type Line = ArrayString<1216>;

/// A table of symbols, unless it is empty: then nothing is looked up.
fn given(symbols: &Symbols) -> Option<&Symbols>
    ensures { table_of (option_copied result) ≡ symbols.now }
{
    if symbols.is_empty() {
        None
    } else {
        Some(symbols)
    }
}

/// The word that a step fetches and its text in a mode, or `-`.
fn word_part(mode: bool, fetched: Fetched) -> ArrayString<80>
    ensures { result.bytes ≡ spec.word_part mode fetched }
{
    match fetched {
        Fetched::Word(word, _) => {
            let words = disassemble(word, mode);
            text(&pieces![Hexadecimal(8, u128::from(word)) " " Text(words.as_str())])
        }
        Fetched::Interrupt | Fetched::Fault => text(&[Text("-")]),
    }
}

/// The line of a trace for the next step, which was planned, of a machine that is not halted, with the step's number: PCC's address, the
/// word of the instruction there and its text in PCC's mode, what the step comes to, and the line of a source that places the instruction,
/// where that is known; after an address stands its label. Where nothing is fetched, as where an interrupt is taken, `-` stands for the
/// word. It takes no memory, and changes nothing.
#[tactic(auto, unfolding(crate::specs::TraceLine::step_word))]
pub fn trace_line<C: CapRep>(
    symbols: &Symbols,
    number: u64,
    hart: &Hart<C>,
    planned: &Planned<C>,
) -> Line
    requires planned { IsPlanned C.value planned.now.effect hart.now }
    requires fetched { planned.now.fetched ≡ step_fetched hart.now }
    ensures { result.bytes ≡ spec.trace_line symbols.now number hart.now }
{
    let table = given(symbols);
    let address = hart.scrs().pcc().address();
    let place = labelled(table, address);
    let source = symbols.source_of(address);
    let word = word_part(hart.scrs().pcc().flag(), planned.fetched);
    let effect = effect_text(table, &planned.effect);
    text(&pieces![
        Decimal(number) " " Text(place.as_str()) " " Text(word.as_str()) ": " Text(effect.as_str())
        Text(source.as_str()) "\n"
    ])
}

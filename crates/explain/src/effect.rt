//! The text of an effect.
ghost use Rattle.std.specs.Prelude.{◌≡◌, ◌*◌, ◌≤◌, ◌++◌, length, codes};
ghost use Rattle.std.specs.Option.{option_copied};
ghost use Rattle.arrayvec.specs.ArrayString.{array_string_len};
ghost use Rattle.cap_bounds.specs.SetAddress.{at_address};
ghost use Rattle.steps.specs.Applying.{meant};
ghost use Rattle.symbols.specs.Labels.{labelled, table_of};
ghost use Rattle.explain.specs.ValueText.{shown_value};
ghost use Rattle.explain.specs.EffectText as spec;

use crate::trap::trap_entry;
use crate::value::{control_name, special_name, value_text, written_first, written_or};
use arrayvec::ArrayString;
use base::Size;
use cap_bounds::CapRep;
use steps::{DeviceLoad, Effect, Enter, Store, StoreCapability};
use symbols::{Symbols, labelled};
use texts::Piece::Text;
use texts::{fill, hex_digits, pieces, text};

/// The text of an effect.
pub(crate) type Line = ArrayString<544>;

/// A number of bytes in words: `1 byte`, `8 bytes`.
pub fn size_text(size: Size) -> &'static str
    ensures text { result.now ≡ spec.shown_size size }
    ensures short { length result.now ≤ 7 }
{
    match size {
        Size::Byte => "1 byte",
        Size::Half => "2 bytes",
        Size::Word => "4 bytes",
        Size::Double => "8 bytes",
    }
}

/// A store of a number.
fn store_part(symbols: Option<&Symbols>, store: Store) -> ArrayString<336>
    ensures { result.bytes ≡ spec.store_part (table_of (option_copied symbols.entry)) store }
{
    let mut part = text(&[Text("store "), Text(size_text(store.size)), Text(" at ")]);
    let place = labelled(symbols, store.address);
    let width = 2 * store.size.bytes() as usize;
    let line = pieces![
        Text(place.as_str()) ": " Hexadecimal(width, u128::from(store.number))
    ];
    fill(&mut part, &line);
    part
}

/// A store of a capability.
fn capability_part<C: CapRep>(symbols: Option<&Symbols>, store: StoreCapability<C>) -> Line
    ensures text { result.bytes ≡ codes "store capability at " ++ labelled (table_of (option_copied symbols.entry)) store.address
        ++ codes ": " ++ shown_value (C.value store.value) }
    ensures within { array_string_len result ≤ 486 }
{
    let place = labelled(symbols, store.address);
    let shown = value_text(store.value);
    text(&pieces!["store capability at " Text(place.as_str()) ": " Text(shown.as_str())])
}

/// A load from a device register.
fn load_part<C: CapRep>(symbols: Option<&Symbols>, load: DeviceLoad<C>) -> Line
    ensures text { result.bytes ≡ spec.written_or (codes "load") load.rd (C.value load.value)
        ++ codes " from device " ++ labelled (table_of (option_copied symbols.entry)) load.address }
    ensures within { array_string_len result ≤ 486 }
{
    let written = written_or("load", load.rd, load.value);
    let place = labelled(symbols, load.address);
    text(&pieces![Text(written.as_str()) " from device " Text(place.as_str())])
}

/// A jump with a link.
fn jump_part<C: CapRep>(symbols: Option<&Symbols>, rd: u8, link: C, target: u64) -> Line
    ensures text { result.bytes
        ≡ spec.written_first rd (C.value link) ++ spec.jump_part (table_of (option_copied symbols.entry)) target }
    ensures within { array_string_len result ≤ 393 }
{
    let written = written_first(rd, link);
    let target = labelled(symbols, target);
    text(&pieces![Text(written.as_str()) "jump to " Text(target.as_str())])
}

/// A jump to a capability.
fn enter_part<C: CapRep>(symbols: Option<&Symbols>, enter: Enter<C>) -> Line
    ensures text { result.bytes ≡ spec.written_first enter.rd (C.value enter.link)
        ++ spec.jump_part (table_of (option_copied symbols.entry)) enter.target ++ codes ", "
        ++ spec.value_part (codes "pcc") (at_address (C.value enter.code) enter.target) }
    ensures within { array_string_len result ≤ 486 }
{
    let mut line = jump_part(symbols, enter.rd, enter.link, enter.target);
    let shown = value_text(enter.code.set_address(enter.target));
    fill(&mut line, &[Text(", pcc = "), Text(shown.as_str())]);
    line
}

/// An exchange of a system register, by its name and the text of its new value.
fn exchange_part<C: CapRep>(rd: u8, old: C, name: ArrayString<20>, shown: &str) -> Line
    requires { length shown.now ≤ 81 }
    ensures text { result.bytes ≡ spec.written_first rd (C.value old) ++ name.bytes ++ codes " = " ++ shown.now }
    ensures within { array_string_len result ≤ 486 }
{
    let written = written_first(rd, old);
    let mut line = text(&[Text(written.as_str()), Text(name.as_str()), Text(" = ")]);
    fill(&mut line, &[Text(shown)]);
    line
}

/// The text of what a step changes, one line without a line feed, at most 486 bytes: a register and its new value, what is stored and
/// where, where a jump goes, or which trap is entered. A write to register 0 is not shown. After an address stands its label, of at
/// most 278 bytes. It takes no memory.
#[tactic(auto, unfolding(crate::specs::EffectText::effect_text))]
pub fn effect_text<C: CapRep>(symbols: Option<&Symbols>, effect: &Effect<C>) -> Line
    ensures text { result.bytes ≡ spec.effect_text (table_of (option_copied symbols.entry)) (meant C.value effect.now) }
    ensures length { array_string_len result ≤ 486 }
{
    match effect {
        Effect::Trap(fault) => trap_entry(*fault),
        Effect::Nothing => text(&[Text("nothing")]),
        Effect::Write(write) | Effect::Unseal(write) => text(&pieces![Text(written_or(
            "nothing",
            write.rd,
            write.value
        ).as_str())]),
        Effect::Store(store) => text(&[Text(store_part(symbols, *store).as_str())]),
        Effect::StoreCapability(store) => capability_part(symbols, *store),
        Effect::DeviceLoad(load) => load_part(symbols, *load),
        Effect::DeviceStore(store) => text(&pieces![
            "device " Text(store_part(symbols, *store).as_str())
        ]),
        Effect::Jump(target) => text(&pieces![
            "jump to " Text(labelled(symbols, *target).as_str())
        ]),
        Effect::Link(link) => jump_part(symbols, link.rd, link.link, link.target),
        Effect::Enter(enter) => enter_part(symbols, *enter),
        Effect::Special(write) => {
            let shown = value_text(write.value);
            exchange_part(
                write.rd,
                write.old,
                special_name(write.number),
                shown.as_str(),
            )
        }
        Effect::Csr(write) => {
            let shown = hex_digits(u128::from(write.value), 16);
            exchange_part(
                write.rd,
                write.old,
                control_name(write.number),
                shown.as_str(),
            )
        }
        Effect::Return { sealed: true } => text(&[Text("return from trap through a sentry")]),
        Effect::Return { sealed: false } => text(&[Text("return from trap")]),
    }
}

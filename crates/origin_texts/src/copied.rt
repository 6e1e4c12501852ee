//! Data that a tagged capability's bits were copied to as two double words.
ghost use Rattle.std.specs.Prelude.{◌≡◌, ◌+◌, ◌<◌, ◌≤◌, ◌-◌, ◌^◌, ◌++◌, IfOk, IfSome, OnOk, Some, option_copied, string_bytes};
ghost use Rattle.hart.specs.Opening.{opening};
ghost use Rattle.origins.specs.Places.{IsHolder, IsThere};
ghost use Rattle.origin_texts.specs.Copied as spec;
ghost use Rattle.origin_texts.specs.Copies.{AreEarly, IsEarly};
ghost use Rattle.origin_texts.specs.Writes.{is_in};
ghost use Rattle.past.specs.Given.{count_of, state_at};
ghost use Rattle.steps.specs.Applying.{IsPlanned, meant};
ghost use Rattle.steps.specs.Looks.{HasRegisters};
ghost use Rattle.steps.specs.MemoryRows.{place_of};
ghost use Rattle.steps.specs.Step.{insn_fetched, step_fetched};
ghost use Rattle.tagged_memory.specs.Memory.{has_tag, word_at};

use crate::log::is_in;
use crate::place::place_text;
use crate::states::{last_among, machine_after};
use base::Size;
use cap_bounds::CapRep;
use cap_format::CapWord;
use explain::trace_line;
use hart::Hart;
use isa_rows::{Insn, Row};
use machine::Machine;
use origins::{Found, Place, Sought};
use past::{Past, Replay};
use schedules::{Count, Progress};
use std::alloc::{AllocError, Global};
use steps::Effect;
use symbols::{Symbols, labelled};
use texts::Piece::Text;
use texts::append;

/// Which register is stored as a double word, and where.
#[derive(Clone, Copy, Debug, PartialEq, Eq)]
pub struct Stored {
    /// Where.
    pub to: u64,
    /// The register.
    pub register: u8,
}

/// A double word that a step loaded and a step stored.
#[derive(Clone, Copy, Debug, PartialEq, Eq)]
pub struct Half {
    /// Where it was loaded from.
    pub from: u64,
    /// Where it was stored.
    pub to: u64,
    /// How many events were before it was loaded.
    pub loaded: u64,
    /// How many events were before it was stored.
    pub stored: u64,
}

/// The two double words of a granule.
#[derive(Clone, Copy, Debug, PartialEq, Eq)]
pub struct Copy {
    /// The one with the lower address.
    pub lower: Half,
    /// The other.
    pub upper: Half,
}

/// Whether a row loads a double word.
fn loads_double(row: Row) -> bool
    ensures { result ≡ spec.loads_double row }
{
    matches!(row, Row::Ld | Row::LdDdc | Row::LdCap)
}

/// Which register an effect stores as a double word, and where.
fn stored_by<C: CapRep>(effect: &Effect<C>, insn: Option<Insn>) -> Option<Stored>
    requires { IfSome insn HasRegisters }
    ensures value { result ≡ spec.stored_by (meant C.value effect.now) insn }
    ensures register { IfSome result (λ what. what.register < 32) }
{
    match (effect, insn) {
        (Effect::Store(store), Some(insn)) if store.size == Size::Double => Some(Stored {
            to: store.address,
            register: insn.rs2,
        }),
        _ => None,
    }
}

/// Which register the next step stores as a double word, and where.
fn next_stored<C: CapRep>(machine: &Machine<C>) -> Option<Stored>
    ensures value { result ≡ spec.next_stored machine.now }
    ensures register { IfSome result (λ what. what.register < 32) }
{
    let planned = machine.next();
    stored_by(&planned.effect, planned.fetched.insn())
}

/// Where an access is made: rs1's number and the immediate.
fn place_of<C: CapRep>(hart: &Hart<C>, insn: Insn) -> u64
    requires { HasRegisters insn }
    ensures { result ≡ place_of insn hart.now }
{
    hart.reg(insn.rs1).address().wrapping_add(insn.imm)
}

/// From where an effect loads a double word into a register.
fn loaded_by<C: CapRep>(hart: &Hart<C>, effect: &Effect<C>, insn: Option<Insn>) -> Option<u64>
    requires { IfSome insn HasRegisters }
    ensures { result ≡ spec.loaded_by (meant C.value effect.now) insn hart.now }
{
    match (effect, insn) {
        (Effect::Write(_), Some(insn)) if loads_double(insn.row) => Some(place_of(hart, insn)),
        _ => None,
    }
}

/// From where the next step loads a double word into a register.
fn next_loaded<C: CapRep>(machine: &Machine<C>) -> Option<u64>
    ensures { result ≡ spec.next_loaded machine.now }
{
    let planned = machine.next();
    loaded_by(machine.hart(), &planned.effect, planned.fetched.insn())
}

/// The double word that a step stored of a register, which a step had loaded.
fn loaded_half(
    alloc: Global,
    past: &Past,
    replay: Option<&Replay>,
    what: Stored,
    store: u64,
    load: Found,
) -> Result<Option<Half>, AllocError>
    requires { load.before < store }
    ensures half { IfOk result (λ half. half ≡ spec.loaded_half past.now (option_copied replay.entry) what store (Some load)) }
    ensures early { IfOk result (λ half. IfSome half (IsEarly store)) }
{
    let machine = machine_after(alloc, past, replay, load.before)?;
    Ok(next_loaded(&machine).map(|from| Half {
        from,
        to: what.to,
        loaded: load.before,
        stored: store,
    }))
}

/// The double word that the event after so many copied.
fn half_at<P: Progress>(
    alloc: Global,
    past: &Past,
    replay: Option<&Replay>,
    store: u64,
    counted: &mut Count<'_, P>,
) -> Result<Option<Half>, AllocError>
    ensures half { IfOk result (λ half. half ≡ spec.half_at past.now (option_copied replay.entry) store) }
    ensures early { IfOk result (λ half. IfSome half (IsEarly store)) }
{
    let machine = machine_after(alloc, past, replay, store)?;
    let Some(what) = next_stored(&machine) else {
        return Ok(None);
    };
    let register = Place::Register(what.register);
    let written = Sought::Written;
    let Some(load) = last_among(alloc, past, replay, written, register, store, counted)? else {
        return Ok(None);
    };
    loaded_half(alloc, past, replay, what, store, load)
}

/// Two double words, the one that stands in a granule's lower half first.
fn both(granule: u64, one: Option<Half>, other: Option<Half>) -> Option<Copy>
    ensures { result ≡ spec.both granule one other }
{
    let one = one?;
    let other = other?;
    Some(if one.to == granule {
        Copy {
            lower: one,
            upper: other,
        }
    } else {
        Copy {
            lower: other,
            upper: one,
        }
    })
}

/// Whether two double words fill a granule, and are those of one granule.
fn is_whole(granule: u64, copy: Copy) -> bool
    ensures { result ≡ spec.is_whole granule copy }
{
    copy.lower.to == granule
        && copy.upper.to.saturating_sub(8) == granule
        && copy.upper.from.saturating_sub(8) == copy.lower.from
}

/// The last two double words that were stored to a granule, of which the later is the event after so many.
fn halves<P: Progress>(
    alloc: Global,
    past: &Past,
    replay: Option<&Replay>,
    granule: u64,
    store: u64,
    counted: &mut Count<'_, P>,
) -> Result<Option<Copy>, AllocError>
    requires { IsThere (Place.Granule granule) (opening past.now.image) }
    ensures copy { IfOk result (λ copy. copy ≡ spec.halves past.now (option_copied replay.entry) granule store) }
    ensures early { IfOk result (λ copy. IfSome copy (AreEarly store)) }
{
    let place = Place::Granule(granule);
    let later = half_at(alloc, past, replay, store, counted)?;
    let written = Sought::Written;
    let Some(found) = last_among(alloc, past, replay, written, place, store, counted)? else {
        return Ok(None);
    };
    let earlier = half_at(alloc, past, replay, found.before, counted)?;
    Ok(both(granule, later, earlier))
}

/// The 128 bits of a granule, and whether they have a tag.
#[tactic(auto, unfolding(tagged_memory::specs::Memory::place_fault))]
fn load_granule<C: CapRep>(machine: &Machine<C>, granule: u64) -> (CapWord, bool)
    requires { IsThere (Place.Granule granule) machine.now }
    ensures { result ≡ (word_at machine.now.memory granule, has_tag machine.now.memory granule) }
{
    machine.memory().load_cap(granule)
}

/// Whether a granule holds a tagged capability of these 128 bits.
fn holds_capability<C: CapRep>(machine: &Machine<C>, granule: u64, word: CapWord) -> bool
    ensures { result ≡ spec.holds_capability granule word machine.now }
{
    if !is_in(machine, Place::Granule(granule)) {
        return false;
    }
    let (found, tag) = load_granule(machine, granule);
    tag && found == word
}

/// The 128 bits of a granule as they stood after so many events.
fn word_after(
    alloc: Global,
    past: &Past,
    replay: Option<&Replay>,
    granule: u64,
    events: u64,
) -> Result<CapWord, AllocError>
    requires { IsThere (Place.Granule granule) (opening past.now.image) }
    ensures { IfOk result (λ word. word ≡ word_at (state_at events past.now (option_copied replay.entry)).memory granule) }
{
    let machine = machine_after(alloc, past, replay, events)?;
    let (word, _) = load_granule(&machine, granule);
    Ok(word)
}

/// Whether the granule that double words were loaded from held a tagged capability of these 128 bits at both loads.
fn is_capability(
    alloc: Global,
    past: &Past,
    replay: Option<&Replay>,
    word: CapWord,
    copy: Copy,
) -> Result<bool, AllocError>
    ensures { IfOk result (λ is. is ≡ spec.is_capability past.now (option_copied replay.entry) word copy) }
{
    let lower = machine_after(alloc, past, replay, copy.lower.loaded)?;
    if !holds_capability(&lower, copy.lower.from, word) {
        return Ok(false);
    }
    let upper = machine_after(alloc, past, replay, copy.upper.loaded)?;
    Ok(holds_capability(&upper, copy.lower.from, word))
}

/// How a granule came to hold the bits of a tagged capability as data, where the event after so many wrote it last.
///
/// It costs three passes over the past's events, which `counted` counts, and six runs of them.
pub(crate) fn copied<P: Progress>(
    alloc: Global,
    past: &Past,
    replay: Option<&Replay>,
    granule: u64,
    store: u64,
    counted: &mut Count<'_, P>,
) -> Result<Option<Copy>, AllocError>
    requires there { IsThere (Place.Granule granule) (opening past.now.image) }
    requires few { store < count_of past.now.given }
    ensures copy { IfOk result (λ copy. copy ≡ spec.copied past.now (option_copied replay.entry) granule store) }
    ensures early { IfOk result (λ copy. IfSome copy (AreEarly store)) }
{
    let Some(copy) = halves(alloc, past, replay, granule, store, counted)? else {
        return Ok(None);
    };
    let _count = past.count();
    let word = word_after(alloc, past, replay, granule, store + 1)?;
    if is_whole(granule, copy) && is_capability(alloc, past, replay, word, copy)? {
        return Ok(Some(copy));
    }
    Ok(None)
}

/// Appends the line of the event after so many, as in a trace.
fn append_event(
    text: &mut String,
    alloc: Global,
    symbols: &Symbols,
    past: &Past,
    replay: Option<&Replay>,
    before: u64,
) -> Result<(), AllocError>
    requires { before ≤ 2 ^ 64 - 2 }
    ensures { OnOk result (string_bytes text.new
        ≡ string_bytes text.old ++ spec.event_line symbols.now past.now (option_copied replay.entry) before) }
{
    let machine = machine_after(alloc, past, replay, before)?;
    let planned = machine.next();
    let line = trace_line(symbols, before + 1, machine.hart(), &planned);
    append(text, &[Text(line.as_str())])
}

/// Appends the lines of a double word: its load and its store.
#[tactic(auto, unfolding(crate::specs::Copied::half_lines))]
fn append_half(
    text: &mut String,
    alloc: Global,
    symbols: &Symbols,
    past: &Past,
    replay: Option<&Replay>,
    half: Half,
) -> Result<(), AllocError>
    requires { IsEarly (2 ^ 64 - 2) half }
    ensures { OnOk result (string_bytes text.new
        ≡ string_bytes text.old ++ spec.half_lines symbols.now past.now (option_copied replay.entry) half) }
{
    append_event(text, alloc, symbols, past, replay, half.loaded)?;
    append_event(text, alloc, symbols, past, replay, half.stored)
}

/// Appends which granule was copied from which.
#[tactic(auto, unfolding(crate::specs::Copied::granules_line))]
fn append_granules(
    text: &mut String,
    symbols: &Symbols,
    granule: u64,
    from: u64,
) -> Result<(), AllocError>
    requires { IsHolder (Place.Granule granule) }
    ensures { OnOk result (string_bytes text.new ≡ string_bytes text.old ++ spec.granules_line symbols.now granule from) }
{
    let name = place_text(symbols, Place::Granule(granule));
    let from = labelled(Some(symbols), from);
    append(
        text,
        &[
            Text(name.as_str()),
            Text(" was copied as data from "),
            Text(from.as_str()),
            Text(", a tagged capability then:\n"),
        ],
    )
}

/// Appends how a granule came to hold the bits of a tagged capability as data.
#[tactic(auto, unfolding(crate::specs::Copied::copy_text))]
pub(crate) fn append_copy(
    text: &mut String,
    alloc: Global,
    symbols: &Symbols,
    past: &Past,
    replay: Option<&Replay>,
    granule: u64,
    copy: Copy,
) -> Result<(), AllocError>
    requires there { IsHolder (Place.Granule granule) }
    requires early { AreEarly (2 ^ 64 - 2) copy }
    ensures { OnOk result (string_bytes text.new
        ≡ string_bytes text.old ++ spec.copy_text symbols.now past.now (option_copied replay.entry) granule copy) }
{
    append_granules(text, symbols, granule, copy.lower.from)?;
    append_half(text, alloc, symbols, past, replay, copy.lower)?;
    append_half(text, alloc, symbols, past, replay, copy.upper)
}

//! The replies to commands.
ghost use Rattle.std.specs.Prelude.{◌≡◌, ◌⊎◌, ◌++◌, ◌*◌, false, true, Ok, Err, IfOk, IfErr, OnOk, OnErr, string_bytes};
ghost use Rattle.cap_bounds.specs.CapValue.{value_flag};
ghost use Rattle.special_regs.specs.Scrs.{scr_value};
ghost use Rattle.steps.specs.State.{pc_of};
ghost use Rattle.tagged_memory.specs.Memory.{is_in_ram};
ghost use Rattle.debug_commands.specs.Limits.{IsWithinLimits, IsShownWithinLimits};
ghost use Rattle.debugger.specs.Reply.{answer_to, code_text, is_beyond, is_outside, is_place_outside, is_stop_outside};
ghost use Rattle.debugger.specs.Reply.{is_view_outside, session_after};
ghost use Rattle.debugger.specs.Reply.{told, view_text, with_stop, word_lines};
ghost use Rattle.debugger.specs.Answers.{seen_reply};
ghost use Rattle.debugger.specs.SessionState.{session_with};

use crate::caps::append_caps;
use crate::ram::{append_memory, append_words};
use crate::reaching::{append_graph, append_may, append_members, append_objects, append_reach};
use crate::recalling::{recalled, told_back};
use crate::reply::Reply;
use crate::run::told_events;
use crate::state::{append_csrs, append_register, append_registers, append_scr, append_scrs};
use crate::stepping::pc;
use crate::stops::{append_stops, set_stops};
use crate::timeline::Timeline;
use cap_bounds::CapRep;
use debug_commands::{
    Command, DebugFault, Events, Recall, SetStops, Stop, View, Watched, about_line, help_text,
};
use explain::{put_why, put_why_objects};
use machine::Machine;
use origins::Place;
use schedules::{Count, Progress};
use std::alloc::{AllocError, Global};
use symbols::Symbols;
use texts::Piece::Text;
use texts::append;
use word_cap::WordCap;

/// The number of PCC.
const PCC: u8 = 0;

/// PCC's flag: capability mode.
#[tactic(auto, unfolding(special_regs::specs::Scrs::scr_value))]
fn mode<C: CapRep>(machine: &Machine<C>) -> bool
    ensures { result ≡ value_flag machine.now.scrs.pcc }
{
    machine.scr(PCC).flag()
}

/// Whether a place is a granule outside RAM.
fn is_place_outside<C: CapRep>(machine: &Machine<C>, place: Place) -> bool
    ensures { result ≡ is_place_outside place machine.now }
{
    match place {
        Place::Granule(address) => !machine.memory().is_in_ram(address, 16),
        _ => false,
    }
}

/// Whether a stop that is set watches some byte outside RAM.
fn is_stop_outside<C: CapRep>(machine: &Machine<C>, set: SetStops) -> bool
    ensures { result ≡ is_stop_outside set machine.now }
{
    match set {
        SetStops::Add(Stop::Changed(Watched::Held(place))) => is_place_outside(machine, place),
        SetStops::Add(Stop::Changed(Watched::Bytes { address, count })) => {
            !machine.memory().is_in_ram(address, count)
        }
        _ => false,
    }
}

/// Whether some byte that a command shows or asks for is outside RAM.
pub(crate) fn is_outside<C: CapRep>(machine: &Machine<C>, command: Command) -> bool
    requires { IsWithinLimits command }
    ensures { result ≡ is_outside command machine.now }
{
    match command {
        Command::Shows(View::Memory { address, count }) => {
            !machine.memory().is_in_ram(address, count)
        }
        Command::Shows(View::Words { address, count }) => {
            !machine.memory().is_in_ram(address, 4 * count)
        }
        Command::Shows(View::WordsAtPcc(count)) => {
            !machine.memory().is_in_ram(pc(machine), 4 * count)
        }
        Command::Gives(Events::Changed { place, .. })
        | Command::Recalls(Recall::Origin(place) | Recall::Lost(place)) => {
            is_place_outside(machine, place)
        }
        Command::Sets(set) => is_stop_outside(machine, set),
        _ => false,
    }
}

/// What a refusal's code means.
fn code_text(fault: DebugFault) -> &'static str
    ensures { result.now ≡ code_text fault }
{
    match fault {
        DebugFault::B1 => "B1 no such command, or no word on the line\n",
        DebugFault::B2 => {
            "B2 operands of another count, form or range; no such label, stop or past; too much to search; a line too long or not ASCII\n"
        }
        DebugFault::B3 => "B3 some byte to be shown lies outside RAM\n",
        DebugFault::B4 => "B4 no memory for the reply\n",
    }
}

/// Appends the lines of so many words from PCC's address to a text.
fn append_words_at_pcc<C: CapRep>(
    text: &mut String,
    symbols: &Symbols,
    machine: &Machine<C>,
    count: u64,
) -> Result<(), AllocError>
    requires { is_in_ram machine.now.memory (pc_of machine.now) (4 * count) ≡ true }
    ensures { OnOk result (string_bytes text.new ≡ string_bytes text.old
        ++ word_lines symbols.now (value_flag machine.now.scrs.pcc) machine.now.memory count (pc_of machine.now)) }
{
    append_words(
        text,
        symbols,
        machine.memory(),
        mode(machine),
        pc(machine),
        count,
    )
}

/// Appends what is to be shown to a text.
#[tactic(auto, unfolding(crate::specs::Reply::view_text))]
fn append_view<C: CapRep>(
    text: &mut String,
    alloc: Global,
    machine: &Machine<C>,
    symbols: &Symbols,
    stops: &[Stop],
    view: View,
) -> Result<(), AllocError>
    requires limits { IsShownWithinLimits view }
    requires inside { is_view_outside view machine.now ≡ false }
    ensures { OnOk result (string_bytes text.new ≡ string_bytes text.old ++ view_text symbols.now stops.now view machine.now) }
{
    match view {
        View::Register(n) => append_register(text, machine, n),
        View::SpecialRegister(n) => append_scr(text, machine, n),
        View::Registers => append_registers(text, machine, 0),
        View::SpecialRegisters => append_scrs(text, machine),
        View::ControlRegisters => append_csrs(text, machine),
        View::Capabilities => append_caps::<C>(text, machine.memory()),
        View::Memory { address, count } => {
            append_memory(text, alloc, machine.memory(), address, count)
        }
        View::Words { address, count } => {
            append_words(
                text,
                symbols,
                machine.memory(),
                mode(machine),
                address,
                count,
            )
        }
        View::WordsAtPcc(count) => append_words_at_pcc(text, symbols, machine, count),
        View::Why => put_why(text, symbols, machine.hart()),
        View::WhyObjects => put_why_objects(text, symbols, machine.hart()),
        View::Reach(horizon) => append_reach(text, alloc, symbols, machine.hart(), horizon),
        View::ReachMembers => append_members(text, alloc, symbols, machine.hart()),
        View::ReachGraph => append_graph(text, alloc, symbols, machine.hart()),
        View::ReachObjects => append_objects(text, alloc, symbols, machine.hart()),
        View::May(may, horizon) => append_may(text, alloc, symbols, machine.hart(), may, horizon),
        View::Stops => append_stops(text, stops),
        View::Help => append(text, &[Text(help_text())]),
        View::HelpOn(line) => append(text, &[Text(about_line(line))]),
        View::Code(fault) => append(text, &[Text(code_text(fault))]),
        View::Nothing => Ok(()),
    }
}

/// The text of what is to be shown, or B4.
fn shown<C: CapRep>(
    alloc: Global,
    machine: &Machine<C>,
    symbols: &Symbols,
    stops: &[Stop],
    view: View,
) -> Result<String, DebugFault>
    requires limits { IsShownWithinLimits view }
    requires inside { is_view_outside view machine.now ≡ false }
    ensures text { IfOk result (λ text. string_bytes text ≡ view_text symbols.now stops.now view machine.now) }
    ensures err { IfErr result (λ fault. fault ≡ DebugFault.B4) }
{
    let mut text = String::new(alloc);
    append_view(&mut text, alloc, machine, symbols, stops, view)?;
    Ok(text)
}

/// Does what a command asks for, and answers its reply: B2 where it goes back to a stop and none holds at a place before, B4 where there is
/// no memory. Then nothing is done.
pub(crate) fn answer<P: Progress>(
    alloc: Global,
    timeline: &mut Timeline<WordCap>,
    symbols: &Symbols,
    stops: &mut Vec<Stop>,
    command: Command,
    counted: &mut Count<'_, P>,
) -> Result<Reply, DebugFault>
    requires limits { IsWithinLimits command }
    requires past { is_beyond command timeline.old.past ≡ false }
    requires inside { is_outside command timeline.old.machine ≡ false }
    ensures reply { IfOk result (λ reply. seen_reply reply ≡ answer_to command (session_with timeline.old symbols.now stops.old.items)) }
    ensures state { OnOk result (session_with timeline.new symbols.now stops.new.items
        ≡ session_after command (session_with timeline.old symbols.now stops.old.items)) }
    ensures stop { OnOk result (with_stop command (session_with timeline.old symbols.now stops.old.items) ≡ Ok command) }
    ensures err { IfErr result (λ fault. (fault ≡ DebugFault.B4)
        ⊎ (with_stop command (session_with timeline.old symbols.now stops.old.items) ≡ Err fault)) }
    ensures same { OnErr result (session_with timeline.new symbols.now stops.new.items
        ≡ session_with timeline.old symbols.now stops.old.items) }
{
    match command {
        Command::Gives(events) => Ok(Reply::Text(told_events(
            alloc, timeline, symbols, stops, events, counted,
        )?)),
        Command::Shows(view) => Ok(Reply::Text(shown(
            alloc,
            &timeline.machine,
            symbols,
            stops,
            view,
        )?)),
        Command::Recalls(recall) => Ok(Reply::Text(recalled(
            alloc, timeline, symbols, recall, counted,
        )?)),
        Command::Back(distance) => Ok(Reply::Text(told_back(
            alloc, timeline, symbols, stops, distance, counted,
        )?)),
        Command::Sets(set) => Ok(Reply::Text(set_stops(alloc, stops, set)?)),
        Command::Quit => Ok(Reply::Quit),
    }
}

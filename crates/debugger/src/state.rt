//! The registers of a machine as lines of text.
ghost use Rattle.std.specs.Prelude.{◌≡◌, ◌<◌, ◌++◌, ◌≤◌, [], IsTrue, OnOk, string_bytes, codes, drop};
ghost use Rattle.std.specs.List.{flat_map, list_all};
ghost use Rattle.asm_names.specs.Registers.{capability_names};
ghost use Rattle.asm_names.specs.SpecialNames.{scr_name};
ghost use Rattle.disassembler.specs.Shown.{name_or};
ghost use Rattle.base.specs.Registers.{is_csr, is_scr};
ghost use Rattle.special_regs.specs.Scrs.{scr_value, scr_values};
ghost use Rattle.special_regs.specs.CsrValues.{csr_value};
ghost use Rattle.devices.specs.Devices.{interrupts_of};
ghost use Rattle.texts.specs.Hex.{hex_of};
ghost use Rattle.explain.specs.ValueText.{shown_value};
ghost use Rattle.debugger.specs.Reply.{register_lines, scr_lines, csr_lines, named_line};
ghost use Rattle.debugger.specs.Lines.{register_line};

use asm_names::{register_name, scr_name};
use base::{CSRS, SPECIAL_REGISTERS, SpecialRegister};
use cap_bounds::CapRep;
use explain::value_text;
use machine::Machine;
use std::alloc::AllocError;
use texts::Piece::Text;
use texts::{append, hex_digits};

/// Appends a line to a text: a name, and what is shown under it.
fn append_line<'a>(text: &mut String, name: &'a str, shown: &'a str) -> Result<(), AllocError>
    ensures { OnOk result (string_bytes text.new ≡ string_bytes text.old ++ (name.now ++ codes " " ++ shown.now ++ codes "\n")) }
{
    append(text, &[Text(name), Text(" "), Text(shown), Text("\n")])
}

/// Appends the line of general register `n`, below 32, to a text.
pub(crate) fn append_register<C: CapRep>(
    text: &mut String,
    machine: &Machine<C>,
    n: u8,
) -> Result<(), AllocError>
    requires { n < 32 }
    ensures { OnOk result (string_bytes text.new ≡ string_bytes text.old ++ register_line machine.now n) }
{
    append_line(
        text,
        register_name(n, true),
        value_text(machine.reg(n)).as_str(),
    )
}

/// Appends the lines of the general registers from `n` on to a text.
pub(crate) fn append_registers<C: CapRep>(
    text: &mut String,
    machine: &Machine<C>,
    n: u8,
) -> Result<(), AllocError>
    requires { n ≤ 32 }
    ensures { OnOk result (string_bytes text.new ≡ string_bytes text.old ++ register_lines machine.now n (drop n capability_names)) }
{
    if n == 32 {
        return Ok(());
    }
    append_register(text, machine, n)?;
    append_registers(text, machine, n + 1)?;
    Ok(())
}

/// The name of special capability register `n`.
fn name_of_scr(n: u8) -> &'static str
    ensures { result.now ≡ name_or [] (scr_name n) }
{
    match scr_name(n) {
        Some(name) => name,
        None => "",
    }
}

/// Appends the line of special capability register `n` to a text.
pub(crate) fn append_scr<C: CapRep>(
    text: &mut String,
    machine: &Machine<C>,
    n: u8,
) -> Result<(), AllocError>
    requires { IsTrue (is_scr n) }
    ensures { OnOk result (string_bytes text.new ≡ string_bytes text.old
        ++ named_line shown_value (name_or [] (scr_name n)) (scr_value machine.now.scrs n)) }
{
    let shown = value_text(machine.scr(n));
    append_line(text, name_of_scr(n), shown.as_str())
}

/// Appends the lines of these special capability registers to a text.
fn append_scrs_of<C: CapRep>(
    text: &mut String,
    machine: &Machine<C>,
    registers: &[SpecialRegister],
) -> Result<(), AllocError>
    requires { IsTrue (list_all (λ r. is_scr r.0) registers.now) }
    ensures { OnOk result (string_bytes text.new ≡ string_bytes text.old
        ++ flat_map (λ r. named_line shown_value r.1.now (scr_value machine.now.scrs r.0)) registers.now) }
{
    match registers {
        [] => Ok(()),
        [first, rest @ ..] => {
            let shown = value_text(machine.scr(first.0 as u8));
            append_line(text, first.1, shown.as_str())?;
            append_scrs_of(text, machine, rest)
        }
    }
}

/// Appends the lines of the special capability registers to a text.
#[tactic(auto, unfolding(special_regs::specs::Scrs::scr_value, asm_names::specs::SpecialNames::scr_name))]
pub(crate) fn append_scrs<C: CapRep>(
    text: &mut String,
    machine: &Machine<C>,
) -> Result<(), AllocError>
    ensures { OnOk result (string_bytes text.new ≡ string_bytes text.old ++ scr_lines (scr_values machine.now.scrs)) }
{
    append_scrs_of(text, machine, &SPECIAL_REGISTERS)
}

/// Appends the lines of these control and status registers to a text.
fn append_csrs_of<C: CapRep>(
    text: &mut String,
    machine: &Machine<C>,
    registers: &[SpecialRegister],
) -> Result<(), AllocError>
    requires { IsTrue (list_all (λ r. is_csr r.0) registers.now) }
    ensures { OnOk result (string_bytes text.new ≡ string_bytes text.old ++ flat_map (λ r. named_line (hex_of 16) r.1.now
        (csr_value machine.now.csrs machine.now.scrs (interrupts_of machine.now.devices) r.0)) registers.now) }
{
    match registers {
        [] => Ok(()),
        [first, rest @ ..] => {
            let shown = hex_digits(u128::from(machine.csr(first.0)), 16);
            append_line(text, first.1, shown.as_str())?;
            append_csrs_of(text, machine, rest)
        }
    }
}

/// Appends the lines of the control and status registers to a text.
pub(crate) fn append_csrs<C: CapRep>(
    text: &mut String,
    machine: &Machine<C>,
) -> Result<(), AllocError>
    ensures { OnOk result (string_bytes text.new ≡ string_bytes text.old ++ csr_lines machine.now) }
{
    append_csrs_of(text, machine, &CSRS)
}

//! What the lines of a text set and place.
ghost use Rattle.std.specs.Prelude.{◌≡◌, ◌+◌, ◌<◌, ◌^◌, None, Some, IsTrue, OnOk, IfOk};
ghost use Rattle.asm_lines.specs.Line.{RowFits};
ghost use Rattle.asm_lines.specs.Seen.{seen_setting, seen_statement, seen_line};
ghost use Rattle.asm_lines.specs.Bounded.{IsBoundedIfAny};
ghost use Rattle.assembler.specs.Capabilities.{capability_in, with_capability};
ghost use Rattle.assembler.specs.Sound.{AreKnown, IsValued, HasWords, ArePartsKnown, HasSmallParts, IsPutThere};
ghost use Rattle.assembler.specs.Values.{asked_by_setting};
ghost use Rattle.assembler.specs.Buildable.{IsBuildable};
ghost use Rattle.assembler.specs.Modest.{is_modest, is_modest_or_none, is_modest_line, IsNear};
ghost use Rattle.std.specs.Option.{option_map};
ghost use Rattle.assembler.specs.Bytes.{bytes_at};
ghost use Rattle.assembler.specs.Blocks.{begun_at};
ghost use Rattle.assembler.specs.Text.{image_of};
ghost use Rattle.assembler.specs.Faults.{page_count, is_misplaced, is_instruction, line_fault, assembled_after};
ghost use Rattle.assembler.specs.Faults.{misplaced, misplaced_bytes, misplaced_capability};
ghost use Rattle.assembler.specs.Faults.{with_setting, with_statement, opening, is_repeated, is_statement_misplaced, with_bytes};
ghost use Rattle.assembler.specs.AtFault.{misplaced_if_any};
ghost use Rattle.assembler.specs.FaultLaws.{statement_fault, fault_by, fault_in_text};

use crate::blocks::{Block, built, close, is_taken};
use crate::bytes::known;
use crate::capabilities::{capability_in, enter, exact_fault};
use crate::checks::named_fault;
use crate::fault::AsmCode;
use crate::labels::Labels;
use crate::misplaced::Misplaced;
use crate::places::{Places, size_at};
use asm_lines::{LineFault, Parsed, Setting, Statement, wrapped};
use base::ram;
use image::{CapEntry, Image};
use std::alloc::{AllocError, Global};
use std::marker::Model;
use std::mem;

/// What the lines so far set and place: the sections in ascending order, none of them empty, and the one that is being filled.
#[derive(Drop)]
pub(crate) struct Builder {
    places: Places,
    pages: Option<u32>,
    mode: Option<bool>,
    entry: Option<u64>,
    begun: bool,
    done: Vec<Block>,
    current: Block,
    capabilities: Vec<CapEntry>,
}

impl Model for Builder {
    ghost use Rattle.assembler.specs.Faults as spec;

    ghost Value = { spec.Assembled };

    ghost view = { λ b. record {
      places = b.places;
      pages = b.pages;
      mode = b.mode;
      entry = b.entry;
      begun = b.begun;
      done = b.done.items;
      current = b.current;
      capabilities = b.capabilities.items;
    } };
}

/// Whether a statement's bytes are an instruction's.
fn is_instruction(statement: &Statement<'_>) -> bool
    ensures { result ≡ is_instruction (seen_statement statement.now) }
{
    matches!(statement, Statement::Instruction(_))
}

impl Builder {
    /// What no lines set.
    pub(crate) fn new(alloc: Global) -> Self
        ensures { result ≡ opening }
    {
        Builder {
            places: Places::new(alloc),
            pages: None,
            mode: None,
            entry: None,
            begun: false,
            done: Vec::new(alloc),
            current: Block::new(alloc, ram::BASE),
            capabilities: Vec::new(alloc),
        }
    }

    /// The number of pages: 1, unless a line sets another.
    pub(crate) fn page_count(&self) -> u32
        ensures { result ≡ page_count self.now }
    {
        self.pages.unwrap_or(1)
    }

    /// The place of the next statement.
    pub(crate) fn place(&self) -> u128
        ensures value { result ≡ self.now.places.place }
        ensures bound { result < 2 ^ 100 }
    {
        self.places.place()
    }

    /// Whether a directive is repeated, or comes too late.
    fn is_misplaced(&self, statement: &Statement<'_>) -> bool
        ensures { result ≡ is_misplaced self.now (seen_statement statement.now) }
    {
        match statement {
            Statement::Setting(Setting::Pages(_)) => self.pages.is_some() || self.begun,
            Statement::Setting(Setting::Mode(_)) => self.mode.is_some() || self.begun,
            Statement::Setting(Setting::Entry(_)) => self.entry.is_some(),
            _ => false,
        }
    }

    /// Why bytes have no place.
    fn misplaced_bytes(&self, place: u128, size: u128, is_code: bool) -> Option<Misplaced>
        requires place { place < 2 ^ 100 }
        requires size { size < 2 ^ 101 }
        ensures { result ≡ misplaced_bytes self.now place size is_code }
    {
        let ram_end = u128::from(ram::BASE)
            + u128::from(ram::PAGE_BYTES) * u128::from(self.page_count());
        if size == 0 {
            None
        } else if place < u128::from(ram::BASE) {
            Some(Misplaced::BelowRam)
        } else if ram_end < place + size {
            Some(Misplaced::PastRam)
        } else if is_taken(place, place + size, &self.done) {
            Some(Misplaced::Taken)
        } else if self.current.len() == 0 && self.done.len() >= 64 {
            Some(Misplaced::TooManySections)
        } else if is_code && place % 4 != 0 {
            Some(Misplaced::CodeAskew)
        } else {
            None
        }
    }

    /// Why a capability has no place where its bytes have one.
    fn misplaced_capability(&self, operands: Option<&[u8]>, place: u128) -> Option<Misplaced>
        ensures { result ≡ misplaced_capability self.now (option_map (λ t. t.now) operands.entry) place }
    {
        if operands.is_none() {
            None
        } else if place % 16 != 0 {
            Some(Misplaced::CapabilityAskew)
        } else if self.capabilities.len() >= 1024 {
            Some(Misplaced::TooManyCapabilities)
        } else {
            None
        }
    }

    /// Why a statement has no place.
    fn misplaced(&self, statement: &Statement<'_>) -> Option<Misplaced>
        requires { IsTrue (is_modest (seen_statement statement.now)) }
        ensures { result ≡ misplaced self.now (seen_statement statement.now) }
    {
        let place = self.place();
        let size = size_at(statement, place);
        let misplaced = self.misplaced_bytes(place, size, is_instruction(statement));
        if misplaced.is_some() {
            return misplaced;
        }
        self.misplaced_capability(capability_in(statement), place)
    }

    /// Why the statement that a line leaves has no place.
    pub(crate) fn misplaced_if_any(&self, statement: &Option<Statement<'_>>) -> Option<Misplaced>
        requires { IsTrue (is_modest_or_none (option_map seen_statement statement.now)) }
        ensures { result ≡ misplaced_if_any self.now (option_map seen_statement statement.now) }
    {
        match statement {
            Some(statement) => self.misplaced(statement),
            None => None,
        }
    }

    /// The first fault of a statement whose line alone has none.
    #[tactic(auto, unfolding(crate::specs::FaultLaws::statement_fault))]
    fn statement_fault(&self, labels: &Labels, statement: &Statement<'_>) -> Option<AsmCode>
        requires { IsTrue (is_modest (seen_statement statement.now)) }
        ensures { result ≡ statement_fault labels.now self.now (seen_statement statement.now) }
    {
        let place = self.place();
        let named = named_fault(self.page_count(), labels, place, statement);
        if named.is_some() {
            return named;
        }
        if self.misplaced(statement).is_some() {
            return Some(AsmCode::A7);
        }
        let operands = capability_in(statement);
        exact_fault(labels, place, operands)
    }

    /// Whether a line defines a name that an earlier line defines.
    fn is_repeated(&self, label: Option<&[u8]>) -> bool
        ensures { result ≡ is_repeated self.now (option_map (λ t. t.now) label.entry) }
    {
        match label {
            Some(name) => self.places.labels().value(name).is_some(),
            None => false,
        }
    }

    /// Whether a line's directive is repeated, or comes too late.
    fn is_line_misplaced(&self, statement: &Option<Statement<'_>>) -> bool
        ensures { result ≡ is_statement_misplaced self.now (option_map seen_statement statement.now) }
    {
        match statement {
            Some(statement) => self.is_misplaced(statement),
            None => false,
        }
    }

    /// The first fault of a statement, if there is one.
    fn fault_in_text(&self, labels: &Labels, statement: &Option<Statement<'_>>) -> Option<AsmCode>
        requires { IsTrue (is_modest_or_none (option_map seen_statement statement.now)) }
        ensures { result ≡ fault_in_text labels.now self.now (option_map seen_statement statement.now) }
    {
        match statement {
            Some(statement) => self.statement_fault(labels, statement),
            None => None,
        }
    }

    /// The first fault of a line. `labels` are those of the whole text.
    pub(crate) fn line_fault(&self, labels: &Labels, line: &Parsed<'_>) -> Option<AsmCode>
        requires { IsTrue (is_modest_line (seen_line line.now)) }
        ensures { result ≡ line_fault labels.now self.now (seen_line line.now) }
    {
        self.fault_by(labels, line)
    }

    /// The same by cases.
    #[tactic(auto, unfolding(crate::specs::FaultLaws::fault_by))]
    fn fault_by(&self, labels: &Labels, line: &Parsed<'_>) -> Option<AsmCode>
        requires { IsTrue (is_modest_line (seen_line line.now)) }
        ensures { result ≡ fault_by labels.now self.now (seen_line line.now) (seen_line line.now).fault }
    {
        let repeated = self.is_repeated(line.label);
        let misplaced = self.is_line_misplaced(&line.statement);
        match line.fault {
            Some(LineFault::A8) => Some(AsmCode::A8),
            Some(LineFault::A9) => Some(AsmCode::A9),
            _ if repeated => Some(AsmCode::A4),
            Some(LineFault::A1) => Some(AsmCode::A1),
            Some(LineFault::A2) => Some(AsmCode::A2),
            _ if misplaced => Some(AsmCode::A2),
            Some(LineFault::A3) => Some(AsmCode::A3),
            None => self.fault_in_text(labels, &line.statement),
        }
    }

    /// Places the bytes of a statement.
    fn fill(&mut self, labels: &Labels, statement: &Statement<'_>) -> Result<(), AllocError>
        requires modest { IsTrue (is_modest (seen_statement statement.now)) }
        requires valued { IsValued labels.now self.old.places.place (seen_statement statement.now) }
        requires words { HasWords labels.now self.old.places.place (seen_statement statement.now) }
        ensures { OnOk result (self.new ≡ with_bytes self.old (bytes_at labels.now self.old.places.place (seen_statement statement.now))) }
    {
        let place = self.places.place();
        self.current.fill(labels, place, statement)?;
        self.begun = true;
        Ok(())
    }

    /// Puts the capability of a statement into RAM, if it is one.
    fn enter(&mut self, labels: &Labels, operands: Option<&[u8]>) -> Result<(), AllocError>
        requires known { ArePartsKnown labels.now self.old.places.place (option_map (λ t. t.now) operands) }
        requires small { HasSmallParts labels.now self.old.places.place (option_map (λ t. t.now) operands) }
        ensures { OnOk result (self.new ≡ record self.old {
          capabilities = with_capability labels.now self.old.places.place (option_map (λ t. t.now) operands.entry) self.old.capabilities;
        }) }
    {
        let place = self.places.place();
        enter(&mut self.capabilities, labels, place, operands)
    }

    /// Begins a section.
    fn begin(&mut self, alloc: Global, address: u64) -> Result<(), AllocError>
        ensures { OnOk result (self.new ≡ begun_at address self.old) }
    {
        let current = mem::replace(&mut self.current, Block::new(alloc, address));
        close(&mut self.done, current)?;
        self.begun = true;
        Ok(())
    }

    /// What a setting without a fault sets.
    fn set(&mut self, labels: &Labels, setting: &Setting<'_>)
        requires { AreKnown labels.now self.old.places.place (asked_by_setting (seen_setting setting.now)) }
        ensures { self.new ≡ with_setting labels.now self.old (seen_setting setting.now) }
    {
        match setting {
            Setting::Pages(pages) => self.pages = Some(*pages),
            Setting::Mode(mode) => self.mode = Some(*mode),
            Setting::Entry(entry) => {
                let value = known(labels, self.places.place(), entry);
                self.entry = Some(wrapped(value));
                self.begun = true;
            }
        }
    }

    /// What a statement without a fault sets and places.
    fn take(
        &mut self,
        alloc: Global,
        labels: &Labels,
        statement: &Statement<'_>,
    ) -> Result<(), AllocError>
        requires modest { IsTrue (is_modest (seen_statement statement.now)) }
        requires valued { IsValued labels.now self.old.places.place (seen_statement statement.now) }
        requires words { HasWords labels.now self.old.places.place (seen_statement statement.now) }
        requires put { IsPutThere labels.now self.old.places.place (seen_statement statement.now) }
        ensures { OnOk result (self.new ≡ with_statement labels.now self.old (seen_statement statement.now)) }
    {
        match statement {
            Statement::Setting(setting) => self.set(labels, setting),
            Statement::Origin(address) => self.begin(alloc, *address)?,
            _ => {
                self.fill(labels, statement)?;
                self.enter(labels, capability_in(statement))?;
            }
        }
        Ok(())
    }

    /// What a line without a fault does.
    #[tactic(auto, unfolding(crate::specs::Faults::assembled_after))]
    pub(crate) fn pass(
        &mut self,
        alloc: Global,
        labels: &Labels,
        line: &Parsed<'_>,
    ) -> Result<(), AllocError>
        requires modest { IsTrue (is_modest_line (seen_line line.now)) }
        requires fits { RowFits (seen_line line.now) }
        requires bounds { IsBoundedIfAny line.now.statement }
        requires faultless { line_fault labels.now self.old (seen_line line.now) ≡ None }
        requires room { self.old.places.place + 2 ^ 28 < 2 ^ 100 }
        requires buildable { IsBuildable self.old }
        ensures value { OnOk result (self.new ≡ assembled_after labels.now self.old (seen_line line.now)) }
        ensures near { OnOk result (IsNear self.old.places.place self.new.places.place) }
    {
        if let Some(statement) = &line.statement {
            self.take(alloc, labels, statement)?;
        }
        self.places.pass(alloc, line)
    }

    /// The image of a correct text.
    #[tactic(auto, using(crate::proofs::BuildLemmas::finished_none))]
    pub(crate) fn finish(self, alloc: Global) -> Result<Image, AllocError>
        requires { IsBuildable self }
        ensures { IfOk result (λ image. image ≡ image_of self) }
    {
        let pages = self.page_count();
        let entry = self.entry.unwrap_or(ram::BASE);
        let mode = u32::from(self.mode.unwrap_or(false));
        let mut sections = self.done;
        close(&mut sections, self.current)?;
        built(alloc, pages, entry, mode, &sections, &self.capabilities)
    }
}

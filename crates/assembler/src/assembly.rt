ghost use Rattle.std.specs.Prelude.{◌≡◌, None, IfOk, IfErr};
ghost use Rattle.assembler.specs.Buildable.{IsBuildable};
ghost use Rattle.assembler.specs.Faults.{opening};
ghost use Rattle.assembler.specs.Labels.{seen_entries};
ghost use Rattle.assembler.specs.Left.{IsFaultOf, IsStoppedAt};
ghost use Rattle.assembler.specs.Placed.{placed_lines};
ghost use Rattle.assembler.specs.Places.{lines_of, symbols_of};
ghost use Rattle.assembler.specs.Standing.{standing_in, standing_of};
ghost use Rattle.assembler.specs.Text.{first_faulty_line, all_assembled, text_fault, text_image};

use crate::builder::Builder;
use crate::fault::AsmFault;
use crate::labels::Labels;
use crate::lines::next_line;
use crate::placed::{PlacedLine, push_statement};
use crate::places::Places;
use crate::standing::{Standing, Stopped};
use image::Image;
use indexmap::IndexMap;
use std::alloc::{AllocError, Global};
use std::marker::Model;

/// What a correct text makes.
#[derive(Drop, Debug)]
pub struct Assembly {
    image: Image,
    labels: Labels,
    placed: Vec<PlacedLine>,
}

impl Model for Assembly {
    ghost use Rattle.assembler.specs.Assembly as spec;

    ghost Value = { spec.Assembly };

    ghost view = { λ a. record { image = a.image; symbols = a.labels; placed = a.placed.items } };
}

impl Assembly {
    /// The image that the text means.
    pub fn image(&self) -> &Image
        ensures { result.now ≡ self.now.image }
    {
        &self.image
    }

    /// The image alone.
    pub fn into_image(self) -> Image
        ensures { result ≡ self.image }
    {
        self.image
    }

    /// The labels and the places of their lines, in order of definition.
    pub fn symbols(&self) -> &IndexMap<Vec<u8>, u128>
        ensures { seen_entries result.now.entries ≡ self.now.symbols }
    {
        self.labels.entries()
    }

    /// The instructions that the text places, in order, each with the number of its line.
    pub fn placed(&self) -> &[PlacedLine]
        ensures { result.now ≡ self.now.placed }
    {
        &self.placed
    }
}

/// The labels of a text and its placed instructions, whatever its faults.
#[derive(Drop)]
struct Walked {
    labels: Labels,
    placed: Vec<PlacedLine>,
}

/// Goes through the places of a text.
fn walk(alloc: Global, text: &[u8]) -> Result<Walked, AllocError>
    ensures labels { IfOk result (λ walked. walked.labels ≡ symbols_of text.now) }
    ensures placed { IfOk result (λ walked. walked.placed.items ≡ placed_lines text.now) }
{
    let mut places = Places::new(alloc);
    let mut placed = Vec::new(alloc);
    let mut number: u64 = 1;
    let mut rest = Some(text);
    while let Some(left) = rest {
        let (line, after) = next_line(left);
        push_statement(&mut placed, number, places.place(), &line.statement)?;
        places.pass(alloc, &line)?;
        number += 1;
        rest = after;
    }
    Ok(Walked {
        labels: places.into_labels(),
        placed,
    })
}

/// What the lines of a text set and place, or the first fault of its first faulty line and where the text stands there. `labels` are those
/// of the whole text.
#[tactic(auto, using(crate::proofs::BuildLemmas::new_buildable, crate::proofs::BuildLemmas::kept_buildable))]
fn built(alloc: Global, labels: Labels, text: &[u8]) -> Result<Standing, Stopped>
    ensures correct { IfOk result (λ _. first_faulty_line labels opening 1 (lines_of text.now) ≡ None) }
    ensures built { IfOk result (λ standing. standing.assembled ≡ all_assembled labels opening (lines_of text.now)) }
    ensures symbols { IfOk result (λ standing. standing.symbols ≡ labels) }
    ensures buildable { IfOk result (λ standing. IsBuildable standing.assembled) }
    ensures fault { IfErr result (λ stopped. IsFaultOf (first_faulty_line labels opening 1 (lines_of text.now)) stopped.fault) }
    ensures standing { IfErr result (IsStoppedAt (standing_in labels (lines_of text.now))) }
{
    let mut builder = Builder::new(alloc);
    let mut number: u64 = 1;
    let mut rest = Some(text);
    while let Some(left) = rest {
        let (line, after) = next_line(left);
        if let Some(code) = builder.line_fault(&labels, &line) {
            return Err(Stopped {
                fault: AsmFault { line: number, code },
                standing: Some(Standing { labels, builder }),
            });
        }
        match builder.pass(alloc, &labels, &line) {
            Ok(()) => {}
            Err(error) => {
                drop(builder);
                drop(labels);
                return Err(Stopped::from(error));
            }
        }
        number += 1;
        rest = after;
    }
    Ok(Standing { labels, builder })
}

/// Assembles a text.
///
/// The fault is that of the first faulty line, counted from 1, and within a line the first of A8, A9, A4, A1, A2, A3, A5, A6, A7, A11;
/// or, where there is no memory, A10 with line 0. With it comes where the text stands there.
pub fn assemble_or_stop(alloc: Global, text: &[u8]) -> Result<Assembly, Stopped>
    ensures correct { IfOk result (λ _. text_fault text.now ≡ None) }
    ensures image { IfOk result (λ assembly. assembly.image ≡ text_image text.now) }
    ensures symbols { IfOk result (λ assembly. assembly.symbols ≡ symbols_of text.now) }
    ensures placed { IfOk result (λ assembly. assembly.placed ≡ placed_lines text.now) }
    ensures fault { IfErr result (λ stopped. IsFaultOf (text_fault text.now) stopped.fault) }
    ensures standing { IfErr result (IsStoppedAt (standing_of text.now)) }
{
    let Walked { labels, placed } = walk(alloc, text)?;
    let Standing { labels, builder } = built(alloc, labels, text)?;
    let image = builder.finish(alloc)?;
    Ok(Assembly {
        image,
        labels,
        placed,
    })
}

/// Assembles a text; a fault alone, as `assemble_or_stop` has it.
pub fn assemble(alloc: Global, text: &[u8]) -> Result<Assembly, AsmFault>
    ensures correct { IfOk result (λ _. text_fault text.now ≡ None) }
    ensures image { IfOk result (λ assembly. assembly.image ≡ text_image text.now) }
    ensures symbols { IfOk result (λ assembly. assembly.symbols ≡ symbols_of text.now) }
    ensures placed { IfOk result (λ assembly. assembly.placed ≡ placed_lines text.now) }
    ensures fault { IfErr result (IsFaultOf (text_fault text.now)) }
{
    match assemble_or_stop(alloc, text) {
        Ok(assembly) => Ok(assembly),
        Err(stopped) => Err(stopped.fault),
    }
}

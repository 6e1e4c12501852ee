//! The command `prove`.

ghost use Rattle.std.specs.Prelude.{◌≡◌, IfErr, IfOk, string_bytes};
ghost use Rattle.every_run_texts.specs.Text.{verdict_text};
ghost use Rattle.commands.specs.Files.{IsNoMemory};
ghost use Rattle.commands.specs.Proving.{FailsToProve, IsProofLoaded, IsShown, ProvesFile};

use crate::auditing::tell;
use crate::fault::ProgramFault;
use crate::files::Folder;
use crate::loading::{Rules, named_rules};
use crate::programs::{LoadedProgram, load_program};
use command_line::ProveRequest;
use every_run::{Verdict, prove};
use every_run_texts::put_verdict;
use hart::Hart;
use image::Image;
use std::alloc::Global;
use std::io::Write;
use symbols::Symbols;
use word_cap::WordCap;

/// What the files of a request hold: the image, what is told with addresses, and the rules.
#[derive(Drop)]
struct LoadedProof {
    image: Image,
    table: Symbols,
    rules: Rules,
}

/// Reads the files of a request: its image or the text that is assembled into it, then its labels and its policy.
fn load_proof<'a, F: Folder>(
    alloc: Global,
    folder: &F,
    request: ProveRequest<'a>,
) -> Result<LoadedProof, ProgramFault<'a>>
    ensures ok { IfOk result (λ loaded. IsProofLoaded request.entry (F.files folder.now) loaded.image loaded.table loaded.rules) }
    ensures err { IfErr result (FailsToProve request.entry (F.files folder.now)) }
{
    let program = load_program(alloc, folder, request.image, request.symbols, request.lines)?;
    let LoadedProgram { image, table } = program;
    let rules = named_rules(alloc, folder, request.policy, &table)?;
    Ok(LoadedProof {
        image,
        table,
        rules,
    })
}

/// The verdict of an image by rules, after at most so many steps of its own code.
fn verdict_of<'a>(
    alloc: Global,
    image: &Image,
    rules: &Rules,
    steps: u64,
) -> Result<Verdict, ProgramFault<'a>>
    ensures ok { IfOk result (IsShown image.now rules.now) }
    ensures err { IfErr result IsNoMemory }
{
    let mut hart: Hart<WordCap> = Hart::new(alloc, image)?;
    let policy = &rules.policy;
    let verdict = prove(alloc, &mut hart, &policy.any, &policy.rules, steps)?;
    Ok(verdict)
}

/// The lines of a verdict by rules.
fn verdict_lines<'a>(
    alloc: Global,
    table: &Symbols,
    rules: &Rules,
    verdict: Verdict,
) -> Result<String, ProgramFault<'a>>
    ensures ok { IfOk result (λ text. string_bytes text
        ≡ verdict_text table.now rules.now.policy.any.items rules.now.policy.lines.items verdict) }
    ensures err { IfErr result IsNoMemory }
{
    let policy = &rules.policy;
    let mut text = String::new(alloc);
    put_verdict(&mut text, table, &policy.any, &policy.lines, verdict)?;
    Ok(text)
}

/// Shows of the image of a file, if it can, that every run keeps to the policy of a file, and tells the verdict on `output`. Answers
/// whether it was shown, and hands the output back.
pub fn prove_file<'a, F: Folder, O: Write + Drop>(
    alloc: Global,
    folder: &F,
    request: ProveRequest<'a>,
    output: O,
) -> Result<(bool, O), ProgramFault<'a>>
    ensures ok { IfOk result (λ done. ProvesFile request.entry (F.files folder.now) done.0 (O.contents output) (O.contents done.1)) }
    ensures err { IfErr result (FailsToProve request.entry (F.files folder.now)) }
{
    let loaded = load_proof(alloc, folder, request)?;
    let verdict = verdict_of(alloc, &loaded.image, &loaded.rules, request.steps)?;
    let text = verdict_lines(alloc, &loaded.table, &loaded.rules, verdict)?;
    let output = tell(output, &text, request.quiet)?;
    Ok((verdict.holds(), output))
}

//! Commands that would write a file over another of their own.

ghost use Rattle.std.specs.Prelude.{◌≡◌, ◌||◌, Some, IfSome};
ghost use Rattle.commands.specs.Overwriting.{Overwrites, are_same, reports_over, runs_over, traces_over};

use crate::files::Folder;
use command_line::{Plan, Reports, RunRequest};

/// Whether two names lead to one file, where both are given.
fn are_same<F: Folder>(folder: &F, name: Option<&str>, other: Option<&str>) -> bool
    ensures { IfSome (F.same folder.now) (λ same. result ≡ are_same same name.entry other.entry) }
{
    match name {
        None => false,
        Some(name) => match other {
            None => false,
            Some(other) => folder.is_same(name, other),
        },
    }
}

/// Whether the trace of a run is written over a file that is read for it.
fn traces_over<F: Folder>(folder: &F, run: RunRequest<'_>) -> bool
    ensures { IfSome (F.same folder.now) (λ same. result ≡ traces_over same run.entry) }
{
    let over_image = are_same(folder, run.trace, Some(run.image));
    let over_input = are_same(folder, run.trace, run.input);
    let over_policy = are_same(folder, run.trace, run.policy);
    let over_labels = are_same(folder, run.trace, run.symbols);
    let over_lines = are_same(folder, run.trace, run.lines);
    (over_image || over_input) || ((over_policy || over_labels) || over_lines)
}

/// Whether a report of a run is written over a file that is read for it, or over its trace.
fn reports_over<F: Folder>(folder: &F, run: RunRequest<'_>, report: Option<&str>) -> bool
    ensures { IfSome (F.same folder.now) (λ same. result ≡ reports_over same run.entry report.entry) }
{
    let over_read = traces_over(
        folder,
        RunRequest {
            trace: report,
            ..run
        },
    );
    over_read || are_same(folder, report, run.trace)
}

/// Whether the trace of a run or a report of it is written over a file that is read for it, or over another of these.
fn runs_over<F: Folder>(folder: &F, run: RunRequest<'_>, reports: Reports<'_>) -> bool
    ensures { IfSome (F.same folder.now) (λ same. result ≡ runs_over same run.entry reports.entry) }
{
    let trace = traces_over(folder, run);
    let profile = reports_over(folder, run, reports.profile);
    let calls = reports_over(folder, run, reports.calls);
    let each_other = are_same(folder, reports.calls, reports.profile);
    (trace || profile) || (calls || each_other)
}

/// Whether the lines of a text are written over another file of `asm`.
fn lines_over<F: Folder>(
    folder: &F,
    lines: Option<&str>,
    input: &str,
    output: &str,
    symbols: Option<&str>,
) -> bool
    ensures { IfSome (F.same folder.now) (λ same. result
        ≡ ((are_same same lines.entry (Some input.entry) || are_same same lines.entry (Some output.entry))
        || are_same same lines.entry symbols.entry)) }
{
    let text = are_same(folder, lines, Some(input));
    let image = are_same(folder, lines, Some(output));
    let labels = are_same(folder, lines, symbols);
    text || image || labels
}

/// Whether a file that a command writes is another of its own, under whichever names.
pub fn overwrites<F: Folder>(folder: &F, plan: Plan<'_>) -> bool
    ensures { Overwrites (F.same folder.now) plan.entry result }
{
    match plan {
        Plan::Asm {
            input,
            output,
            symbols,
            lines,
            ..
        } => {
            let text = folder.is_same(output, input);
            let labels = are_same(folder, symbols, Some(input));
            let image = are_same(folder, symbols, Some(output));
            (text || labels || image) || lines_over(folder, lines, input, output, symbols)
        }
        Plan::Image { flat, output, .. } => folder.is_same(output, flat),
        Plan::Go {
            request,
            reports,
            ..
        }
        | Plan::Run {
            request,
            reports,
            ..
        } => runs_over(folder, request, reports),
        Plan::Audit(request) => traces_over(folder, request),
        _ => false,
    }
}

//! The verdict on a report that stands behind its scenario.
ghost use Rattle.std.specs.Prelude.{◌≡◌, ◌≤◌, ◌++◌, length, IfOk, OnOk};
ghost use Rattle.vch_model.specs.Scenarios.{IsLimited};
ghost use Rattle.vch_replay.specs.Input.{limit};
ghost use Rattle.vch_replay.specs.Judged as lines;
ghost use Rattle.vch_replay.specs.Run.{Comes, IsJudged};
ghost use Rattle.vch_replay.specs.declared.command.Command.TheVariants as commands;

use crate::fault::scenario_line;
use crate::outcome::Outcome;
use crate::two_texts::two_texts;
use std::alloc::Global;
use vch_base::NoMemory;
use vch_certify::{Flaw, Verdict, certify};
use vch_model::Scenario;
use vch_report::ReportFault;
use vch_scenario::ScenarioFault;
use vch_text::{push_spaced, push_text};

/// Appends what is wrong with a report.
fn push_flaw(out: &mut Vec<u8>, flaw: Flaw) -> Result<(), NoMemory>
    ensures { OnOk result (out.new.items ≡ out.old.items ++ lines.flaw_text flaw) }
{
    match flaw {
        Flaw::Version => push_text(out, b"version"),
        Flaw::Entry { number } => {
            push_text(out, b"entry")?;
            push_spaced(out, number)
        }
        Flaw::Call { task, number } => {
            push_text(out, b"call")?;
            push_spaced(out, task)?;
            push_spaced(out, number)
        }
        Flaw::Phase { phase } => {
            push_text(out, b"phase")?;
            push_spaced(out, phase)
        }
        Flaw::Left { made } => {
            push_text(out, b"left")?;
            push_spaced(out, made)
        }
        Flaw::Total { task } => {
            push_text(out, b"total")?;
            push_spaced(out, task)
        }
        Flaw::Count => push_text(out, b"count"),
    }
}

/// The line of a verdict.
fn verdict_line(alloc: Global, verdict: Verdict) -> Result<Vec<u8>, NoMemory>
    ensures { IfOk result (λ text. text.items ≡ lines.verdict_text verdict) }
{
    let mut out = Vec::new(alloc);
    match verdict {
        Verdict::Whole => push_text(&mut out, b"whole")?,
        Verdict::Not { flaw } => {
            push_text(&mut out, b"not ")?;
            push_flaw(&mut out, flaw)?;
        }
    }
    push_text(&mut out, b"\n")?;
    Ok(out)
}

/// The line of the first line that can't stand in a report.
fn report_line(alloc: Global, line: u32) -> Result<Vec<u8>, NoMemory>
    ensures { IfOk result (λ text. text.items ≡ lines.report_fault line) }
{
    let mut out = Vec::new(alloc);
    push_text(&mut out, b"fault report line")?;
    push_spaced(&mut out, line)?;
    push_text(&mut out, b"\n")?;
    Ok(out)
}

/// The verdict on the report that a text is, or the first line that can't stand in it.
fn judged(alloc: Global, scenario: &Scenario, text: &[u8]) -> Result<Outcome, NoMemory>
    requires limited { IsLimited scenario.now }
    requires short { length text.now ≤ limit }
    ensures { IfOk result (λ outcome. IsJudged scenario.now text.now outcome) }
{
    match vch_report::read(alloc, text) {
        Ok(report) => {
            let verdict = certify(alloc, scenario, &report)?;
            let text = verdict_line(alloc, verdict)?;
            Ok(Outcome::Answered { text })
        }
        Err(ReportFault::At { line }) => {
            let line = report_line(alloc, line)?;
            Ok(Outcome::Refused { line })
        }
        Err(ReportFault::NoMemory { cause }) => Err(cause),
    }
}

/// The verdict on the report whose text stands behind a scenario's, or the first fault of either text.
pub fn answer(alloc: Global, input: &[u8]) -> Result<Outcome, NoMemory>
    requires { length input.now ≤ limit }
    ensures { IfOk result (λ outcome. Comes commands.Certify input.now outcome) }
{
    let (first, rest) = two_texts(input);
    match vch_scenario::read(alloc, first) {
        Ok(scenario) => judged(alloc, &scenario, rest),
        Err(ScenarioFault::At { line, why }) => {
            let line = scenario_line(alloc, line, why)?;
            Ok(Outcome::Refused { line })
        }
        Err(ScenarioFault::NoMemory { cause }) => Err(cause),
    }
}

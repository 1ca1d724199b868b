ghost use Rattle.vch_model.specs.declared.lists.Scenario.{Scenario};
ghost use Rattle.vch_report.specs.declared.report.Report.{Report};
ghost use Rattle.vch_certify.specs.Verdicts.{IsVerdict};
ghost use Rattle.vch_certify.specs.declared.verdict.Flaw.{Flaw};
ghost use Rattle.vch_certify.specs.declared.verdict.Verdict.TheVariants as verdicts;

/// A law: no report is both whole and flawed. So a verdict of a flaw tells that the history is not whole, or that the report
/// is not the one of it.
#[tactic(auto, using(crate::proofs::Apart::flawed_not_whole))]
pub fn flawed_reports()
    ensures { (sc : Scenario) (report : Report) (flaw : Flaw) → IsVerdict sc report (verdicts.Not flaw) → IsVerdict sc report verdicts.Whole → ⊥ }
{}

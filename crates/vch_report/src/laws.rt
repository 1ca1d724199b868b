ghost use Rattle.std.specs.Prelude.{◌≡◌, ◌⊎◌, ℕ, List, Some, reverse};
ghost use Rattle.vch_report.specs.declared.report.Report.{Report};
ghost use Rattle.vch_report.specs.WellFormed.{IsWellFormed};
ghost use Rattle.vch_report.specs.Items.{text_of};
ghost use Rattle.vch_report.specs.Faults.{IsReport, IsSame, IsFault};
ghost use Rattle.std.specs.Prelude.{◌<◌, ◌^◌, length};
ghost use Rattle.std.specs.List.{AllByRecursion};
ghost use Rattle.vch_model.specs.declared.entry.Entry.{Entry};
ghost use Rattle.vch_model.specs.declared.lists.Scenario.{Scenario};
ghost use Rattle.vch_model.specs.Scenarios.{IsLimited};
ghost use Rattle.vch_model.specs.Legal.{Legal};
ghost use Rattle.vch_model.specs.Canonical.{IsWritable};
ghost use Rattle.vch_machine.specs.State.{Machine};
ghost use Rattle.vch_machine.specs.Schedules.{Move, run_from_start};
ghost use Rattle.vch_legal.specs.Reports.{IsByteEntry};
ghost use Rattle.vch_report.specs.OfCore.{Tells};

/// A text is that of one report or has one first line that can't stand, and never both.
pub fn one_answer()
    ensures some { (text : List ℕ) → ((report : Report) × IsReport text report)
        ⊎ ((line : ℕ) × IsFault text line) }
    ensures never_both { (text : List ℕ) (report : Report) (line : ℕ)
        → IsReport text report → IsFault text line → ⊥ }
    ensures one_report { (text : List ℕ) (a b : Report) → IsReport text a → IsReport text b → IsSame a b }
    ensures one_line { (text : List ℕ) (a b : ℕ) → IsFault text a → IsFault text b → a ≡ b }
{}

/// A well-formed report has one text, which is that of no other: two that have one text tell the
/// same, so the history that is printed is the only one with that text. And what is written is a
/// text that is read again.
pub fn one_text()
    ensures injective { (a b : Report) → IsWellFormed a → IsWellFormed b → text_of a ≡ text_of b → IsSame a b }
    ensures again { (report : Report) → IsWellFormed report → IsReport (text_of report) report }
{}

/// A legal history has a text: a report that tells of one is well formed, where its entries can be numbered in 32 bits and
/// the content of what is made are bytes. That what such a history tells has a text is `vch_legal`'s law
/// `legal_reports_are_well_formed`, and this is it for reports. A run of a scenario that has a text makes bytes alone and is short
/// enough, so what its history tells always has a text.
pub fn legal_reports()
    ensures legal { (sc : Scenario) (history : List Entry) (report : Report) → IsLimited sc → length history < 2 ^ 32
        → AllByRecursion IsByteEntry history → Legal history sc → Tells sc history report → IsWellFormed report }
    ensures run { (sc : Scenario) (moves : List Move) (n : Machine) (report : Report) → IsWritable sc → run_from_start sc moves ≡ Some n
        → Tells sc (reverse n.past) report → IsWellFormed report }
{}

ghost use Rattle.std.specs.Prelude.{◌≡◌, ◌⊎◌, ◌↔◌, ℕ, List};
ghost use Rattle.vch_model.specs.declared.lists.Scenario.{Scenario};
ghost use Rattle.vch_scenario.specs.declared.fault.Why.{Why};
ghost use Rattle.vch_model.specs.Scenarios.{IsScenario};
ghost use Rattle.vch_scenario.specs.Faults.{IsFault};
ghost use Rattle.vch_model.specs.Canonical.{Canon, IsWritable};
ghost use Rattle.vch_scenario.specs.WorkedTexts.{AreOfScenarios};
ghost use Rattle.vch_scenario.specs.FaultTexts.{HaveFaults, HaveNoScenario};

/// A text is of one scenario or has one first fault, and never both.
pub fn one_answer()
    ensures some { (text : List ℕ) →
        ((sc : Scenario) × IsScenario text sc) ⊎ ((line : ℕ) × (why : Why) × IsFault text line why) }
    ensures never_both { (text : List ℕ) (sc : Scenario) (line : ℕ) (why : Why) →
        IsScenario text sc → IsFault text line why → ⊥ }
    ensures one_scenario { (text : List ℕ) (a b : Scenario) →
        IsScenario text a → IsScenario text b → a ≡ b }
    ensures one_fault { (text : List ℕ) (a b : ℕ) (v w : Why) →
        IsFault text a v → IsFault text b w → (a ≡ b) × (v ≡ w) }
{}

/// What is written is read again: the canonical text of a scenario within the limits is a text of it,
/// and no scenario beyond them has a text. Two texts are of one scenario exactly where their
/// scenarios have one canonical text.
pub fn round_trip()
    ensures again { (sc : Scenario) → IsWritable sc → IsScenario (Canon sc) sc }
    ensures writable { (text : List ℕ) (sc : Scenario) → IsScenario text sc → IsWritable sc }
    ensures one_text { (s t : List ℕ) (a b : Scenario) →
        IsScenario s a → IsScenario t b → (a ≡ b) ↔ (Canon a ≡ Canon b) }
{}

/// Laws that compute: each text of a table is one of its scenario, and each of another table has its first fault, so it is one of
/// no scenario.
#[tactic(auto, using(crate::proofs::wholes::TextAnswers::of_scenarios, crate::proofs::wholes::TextAnswers::have_faults, crate::proofs::wholes::TextAnswers::have_no_scenario))]
pub fn worked_texts()
    ensures scenarios { AreOfScenarios }
    ensures faults { HaveFaults }
    ensures none { HaveNoScenario }
{}

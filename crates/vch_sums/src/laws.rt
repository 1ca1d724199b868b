//! Laws about definitions that other crates cite.
ghost use Rattle.std.specs.Prelude.{◌≡◌, true, List};
ghost use Rattle.vch_model.specs.declared.entry.Entry.{Entry};
ghost use Rattle.vch_model.specs.declared.lists.Scenario.{Scenario};
ghost use Rattle.vch_sums.specs.Summed.{Follows, Summed, is_passed};

/// A law: an entry changes no sum where it is none of Made, Released, and an accepted change of an external count or charge.
#[tactic(auto, using(crate::proofs::Passing::passed))]
pub fn passed_entries()
    ensures { (sc : Scenario) (past : List Entry) (entry : Entry) (sums : Summed) → is_passed sc entry ≡ true → Follows sc past entry sums sums }
{}

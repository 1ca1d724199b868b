//! Laws about the definitions: worked histories that are legal, and their texts.
ghost use Rattle.vch_model.specs.Again.{MakeAgain};
ghost use Rattle.vch_model.specs.Histories.{AreWhole, AreRefusals, AreCounts, AreLong, AreRecords, AreRecipes, AreTwo, AreKeys, AreLists, AreNames, Texts};
ghost use Rattle.vch_model.specs.IllegalHistories.{AreIllegal};
ghost use Rattle.vch_model.specs.IllegalRows.{AreRefused};
ghost use Rattle.vch_model.specs.LongQueue.{IsWholeAtEach};
ghost use Rattle.vch_model.specs.Managed.{AreManaged};
ghost use Rattle.vch_model.specs.Same.{AreSameWhereEqual};
ghost use Rattle.vch_model.specs.Starts.{AreStarts};
ghost use Rattle.vch_model.specs.TextsMore.{TextsMore};
ghost use Rattle.vch_model.specs.Unended.{AreUnended};
ghost use Rattle.vch_model.specs.Unwanted.{AreUnwanted};
ghost use Rattle.vch_model.specs.TextsTwo.{TextsTwo};
ghost use Rattle.vch_model.specs.Versions.{KeepVersion};

/// A law that computes: each history that is written beside a worked scenario is a whole one of it, and two of them have
/// these texts.
#[tactic(auto, using(crate::proofs::worked::WorkedHistories::are_whole, crate::proofs::worked::WorkedHistories::texts))]
pub fn worked_histories()
    ensures whole { AreWhole }
    ensures texts { Texts }
{}

/// A law that computes: so are those of refusals, of records, of external counts, of recipes, of long arrays, and of version 2.
pub fn worked_parts()
    ensures refusals { AreRefusals }
    ensures counts { AreCounts }
    ensures records { AreRecords }
    ensures recipes { AreRecipes }
    ensures long { AreLong }
    ensures version_2 { AreTwo }
    ensures by_key { AreKeys }
    ensures lists { AreLists }
    ensures names { AreNames }
{}

/// A law that computes: each of these histories is legal, though not to the end.
pub fn worked_starts()
    ensures { AreStarts }
{}

/// A law that computes: each of these histories is legal, and not whole.
#[tactic(auto, using(crate::proofs::illegal::Unended::are_unended))]
pub fn unended_histories()
    ensures { AreUnended }
{}

/// A law that computes: no call of these may be answered out of memory.
#[tactic(auto, using(crate::proofs::illegal::Unwanted::are_unwanted))]
pub fn unwanted_calls()
    ensures { AreUnwanted }
{}

/// A law that computes: what the managers answer of another task's values, which no history can ask.
#[tactic(auto, using(crate::proofs::Managed::are_managed))]
pub fn managed_values()
    ensures { AreManaged }
{}

/// A law: no history goes on with the entry that is written behind it.
#[tactic(auto, using(crate::proofs::illegal::IllegalHistories::are_illegal, crate::proofs::illegal::IllegalRows::are_refused))]
pub fn illegal_histories()
    ensures illegal { AreIllegal }
    ensures refused { AreRefused }
{}

/// A law that computes: two reports and a canonical scenario of version 2, and which queue limits a task line may write.
#[tactic(auto, using(crate::proofs::texts::TextsTwo::texts_two))]
pub fn texts_of_version_2()
    ensures { TextsTwo }
{}

/// A law that computes: three more reports, and a canonical scenario with each call of version 1 and each flag.
#[tactic(auto, using(crate::proofs::texts::TextsMore::texts_more))]
pub fn more_texts()
    ensures { TextsMore }
{}

/// A law: a queue of any limit takes so many messages and refuses one more, and an exit gives up each of them.
#[tactic(auto, using(crate::proofs::LongQueue::whole_at_each))]
pub fn long_queues()
    ensures { IsWholeAtEach }
{}

/// A law: where the recipe of a voucher is marked whole, a create of its bytes gives the voucher, whatever names the task has.
#[tactic(auto, using(crate::proofs::Again::make_again))]
pub fn whole_recipes()
    ensures { MakeAgain }
{}

/// A law: vouchers with equal values are one, and a voucher equals itself.
#[tactic(auto, using(crate::proofs::Same::same_where_equal))]
pub fn equal_vouchers()
    ensures { AreSameWhereEqual }
{}

/// A law: after any history, the vouchers of names and messages have values at managed keys of the scenario's version alone.
#[tactic(auto, using(crate::proofs::Versions::keep_version))]
pub fn vouchers_of_version()
    ensures { KeepVersion }
{}

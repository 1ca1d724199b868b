ghost use Rattle.std.specs.Prelude.{IsTrue};
ghost use Rattle.vch_base.specs.declared.kind.Kind.TheVariants as kinds;
ghost use Rattle.vch_model.specs.declared.call.Call.TheVariants as calls;
ghost use Rattle.vch_model.specs.Lines.{is_task};
ghost use Rattle.vch_parts.specs.Reached.{Reached, MayFollow};
ghost use Rattle.vch_answers.specs.Answered.{Begins};

use vch_answers::answer;
use vch_model::{Reply, Word};
use vch_parts::Parts;

/// Begin of a `ledger`: the call is answered with what the bank has in the ledger of the task. Constant time.
pub fn begin_ledger(parts: &mut Parts, task: u32)
    requires reached { Reached parts.old }
    requires task { IsTrue (is_task parts.old.scenario task) }
    requires begins { Begins parts.old task calls.Ledger }
    ensures { MayFollow kinds.Begin task parts.old parts.new }
{
    let amount = parts.values.ledger(task);
    answer(parts, task, Word::Ledger, Reply::Ledger { amount });
}

/// Begin of an `assertions`: the call is answered with how many assertions of importance the task holds, and how many are out
/// from it. Constant time.
pub fn begin_assertions(parts: &mut Parts, task: u32)
    requires reached { Reached parts.old }
    requires task { IsTrue (is_task parts.old.scenario task) }
    requires begins { Begins parts.old task calls.Assertions }
    ensures { MayFollow kinds.Begin task parts.old parts.new }
{
    let held = parts.values.held(task);
    let out = parts.values.out(task);
    answer(
        parts,
        task,
        Word::Assertions,
        Reply::Assertions { held, out },
    );
}

/// Begin of a `live`: the call is answered with how many different vouchers names and messages have, and how many values are
/// live at all keys. Constant time.
pub fn begin_live(parts: &mut Parts, task: u32)
    requires reached { Reached parts.old }
    requires task { IsTrue (is_task parts.old.scenario task) }
    requires begins { Begins parts.old task calls.Live }
    ensures { MayFollow kinds.Begin task parts.old parts.new }
{
    parts.values.know();
    let vouchers = parts.vouchers.count();
    let values = parts.values.live();
    answer(parts, task, Word::Live, Reply::Live { vouchers, values });
}

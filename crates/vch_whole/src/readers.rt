ghost use Rattle.std.specs.Prelude.{◌≡◌, ◌≤◌, IsTrue, length};
ghost use Rattle.vch_model.specs.After.{store_of};
ghost use Rattle.vch_model.specs.Lines.{is_task};
ghost use Rattle.vch_model.specs.Text.{vouchers_in, values_in};
ghost use Rattle.vch_model.specs.Totals as totals;
ghost use Rattle.vch_machine.specs.State.{Machine};
ghost use Rattle.vch_parts.specs.Reached.{Stands};

use crate::Core;
use vch_model::Total;

impl Core {
    /// What a task holds and charges: its ledger, and the assertions that it holds and that are out from it. Constant time.
    pub fn total(&self, task: u32) -> Total
        requires task { IsTrue (is_task self.now.scenario task) }
        ensures { (m : Machine) → Stands self.now m → result ≡ record { ledger = totals.ledger self.now.scenario m.past task; held = totals.held self.now.scenario m.past task; out = totals.out self.now.scenario m.past task } }
    {
        Total {
            ledger: self.parts.values.ledger(task),
            held: self.parts.values.held(task),
            out: self.parts.values.out(task),
        }
    }

    /// How many different vouchers names and messages have. Constant time.
    pub fn vouchers(&self) -> u64
        requires some_task { 1 ≤ length self.now.scenario.flags }
        ensures { (m : Machine) → Stands self.now m → result ≡ vouchers_in (store_of self.now.scenario m.past) }
    {
        self.parts.values.know();
        self.parts.vouchers.count()
    }

    /// How many values are live at all keys; Default is one of them. Constant time.
    pub fn values(&self) -> u64
        requires some_task { 1 ≤ length self.now.scenario.flags }
        ensures { (m : Machine) → Stands self.now m → result ≡ values_in (store_of self.now.scenario m.past) }
    {
        self.parts.values.know();
        self.parts.values.live()
    }
}

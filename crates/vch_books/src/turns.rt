ghost use Rattle.std.specs.Prelude.{◌≡◌, ◌<◌, ◌≤◌, ◌+◌, ◌↔◌, length, IsTrue, MatchOption};
ghost use Rattle.std.specs.List.{AllByRecursion};
ghost use Rattle.vch_base.specs.Tasks.{at_task};
ghost use Rattle.vch_model.specs.Legal.{EachTask};
ghost use Rattle.vch_model.specs.Lines.{lines_until};
ghost use Rattle.vch_books.specs.Desks.{Desk, empty_desk};
ghost use Rattle.std.specs.Option.{option_copied};
ghost use Rattle.vch_books.specs.Turns.{call_in_phase, IsShort};
ghost use Rattle.vch_script.specs.Places.{ArePlaces, spots_of};

use crate::tasks::Tasks;
use vch_model::{Call, Scenario};
use vch_script::Places;

/// A line without its Call: the first one of a task.
#[derive(Clone, Copy, Debug)]
pub struct Uncalled {
    pub task: u32,
    pub number: u32,
}

/// The call of a task behind so many others, where it lies in the phase behind so many others.
pub fn call_now<'a>(
    scenario: &'a Scenario,
    places: &Places,
    task: u32,
    begun: u32,
    phases: u32,
) -> Option<&'a Call>
    requires places { ArePlaces scenario.now places.now }
    requires few { begun < 4294967295 }
    ensures { option_copied result ≡ call_in_phase scenario.now task begun phases }
{
    if !places.has_call(scenario, task, begun, phases) {
        return None;
    }
    if phases > 0 && places.has_call(scenario, task, begun, phases - 1) {
        return None;
    }
    places.call(scenario, task, begun + 1)
}

/// Whether each task has begun each of its calls up to the phase behind so many others.
pub fn all_begun(scenario: &Scenario, places: &Places, tasks: &Tasks, phases: u32) -> bool
    requires places { ArePlaces scenario.now places.now }
    requires few { length tasks.now ≤ 64 }
    ensures { IsTrue result ↔ EachTask (length tasks.now) (λ t. lines_until scenario.now (phases + 1) t ≤ (at_task tasks.now t empty_desk).begun) }
{
    for done in 0..tasks.len() {
        let task = done as u32 + 1;
        if places.has_call(scenario, task, tasks.begun_at(task), phases) {
            return false;
        }
    }
    true
}

/// The first line that a task has not begun, of the lowest such task.
pub fn first_short(places: &Places, tasks: &Tasks) -> Option<Uncalled>
    requires few { length tasks.now ≤ 64 }
    requires small { AllByRecursion (λ (d : Desk). d.begun ≤ 16384) tasks.now }
    ensures { MatchOption result (EachTask (length tasks.now) (λ t. length (spots_of places.now t) ≤ (at_task tasks.now t empty_desk).begun)) (λ u. IsShort places.now tasks.now u.task u.number) }
{
    for done in 0..tasks.len() {
        let task = done as u32 + 1;
        let begun = tasks.begun_at(task);
        if (begun as usize) < places.lines(task) {
            return Some(Uncalled {
                task,
                number: begun + 1,
            });
        }
    }
    None
}

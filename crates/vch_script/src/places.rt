ghost use Rattle.std.specs.Prelude.{◌≡◌, ◌≤◌, ◌<◌, ◌+◌, ◌-◌, ◌++◌, ◌∷◌, ◌↔◌, [], ℕ, IsTrue, OnOk, OnErr, IfOk, length, slice_get, slice_set, slice_index_or};
ghost use Rattle.std.specs.Option.{option_copied};
ghost use Rattle.vch_model.specs.Lines.{lines_until};
ghost use Rattle.vch_machine.specs.Next.{nth_call};
ghost use Rattle.vch_script.specs.Places.{AddsLines, AreOfTasks, ArePlaces, spots_of};

use std::alloc::Global;
use std::marker::Model;
use vch_base::NoMemory;
use vch_model::{Call, PhaseList, Scenario};

/// Where a line stands: its phase, and its place there, each counted from 0.
#[derive(Clone, Copy, Debug)]
pub struct Spot {
    pub phase: usize,
    pub line: usize,
}

/// Where the lines of one task stand, in their order.
#[derive(Drop)]
pub struct Spots {
    items: Vec<Spot>,
}

impl Model for Spots {
    ghost use Rattle.std.specs.Prelude.{List};
    ghost use Rattle.vch_script.specs.declared.places.Spot.{Spot};

    ghost Value = { List Spot };

    ghost view = { λ s. s.items.items };
}

impl Spots {
    /// No line. It takes no memory.
    fn new(alloc: Global) -> Spots
        ensures { result ≡ [] }
    {
        Spots {
            items: Vec::new(alloc),
        }
    }

    /// One more line. The one error is out of memory.
    fn push(&mut self, spot: Spot) -> Result<(), NoMemory>
        ensures ok { OnOk result (self.new ≡ self.old ++ spot ∷ []) }
        ensures err { OnErr result (self.new ≡ self.old) }
    {
        self.items.push(spot)?;
        Ok(())
    }
}

/// Where the lines of the tasks 1, 2, 3 and so on stand.
#[derive(Drop)]
pub struct Places {
    items: Vec<Spots>,
}

impl Model for Places {
    ghost use Rattle.std.specs.Prelude.{List};
    ghost use Rattle.vch_script.specs.declared.places.Spot.{Spot};

    ghost Value = { List (List Spot) };

    ghost view = { λ p. p.items.items };
}

impl Places {
    /// No task. It takes no memory.
    fn new(alloc: Global) -> Places
        ensures { result ≡ [] }
    {
        Places {
            items: Vec::new(alloc),
        }
    }

    /// One more task, without a line. The one error is out of memory.
    fn push(&mut self, alloc: Global) -> Result<(), NoMemory>
        ensures ok { OnOk result (self.new ≡ self.old ++ [] ∷ []) }
        ensures err { OnErr result (self.new ≡ self.old) }
    {
        self.items.push(Spots::new(alloc))?;
        Ok(())
    }

    /// One more line of a task. The one error is out of memory.
    fn add(&mut self, task: u32, spot: Spot) -> Result<(), NoMemory>
        requires task { (0 < task) × (task ≤ length self.old) }
        ensures { OnOk result (self.new ≡ slice_set self.old (task - 1) (slice_index_or self.old (task - 1) [] ++ spot ∷ [])) }
    {
        self.items[task as usize - 1].push(spot)
    }

    /// Where a line of a task stands, by its number from 0; or nothing where the task has no such line. Constant time.
    pub fn find(&self, task: u32, number: usize) -> Option<Spot>
        ensures { result ≡ slice_get (spots_of self.now task) number }
    {
        if task == 0 {
            return None;
        }
        let spots = self.items.get(task as usize - 1)?;
        spots.items.get(number).copied()
    }

    /// How many lines a task has. Constant time.
    pub fn lines(&self, task: u32) -> usize
        ensures { result ≡ length (spots_of self.now task) }
    {
        if task == 0 {
            return 0;
        }
        match self.items.get(task as usize - 1) {
            Some(spots) => spots.items.len(),
            None => 0,
        }
    }

    /// The call of a task with a number, counted from 1, or nothing where the task has no such call. The places are those of the
    /// scenario. Constant time.
    pub fn call<'a>(&self, scenario: &'a Scenario, task: u32, number: u32) -> Option<&'a Call>
        requires { ArePlaces scenario.now self.now }
        ensures { option_copied result ≡ nth_call scenario.now task number }
    {
        let spot = self.find(task, number.saturating_sub(1) as usize)?;
        Some(&scenario.phases.at(spot.phase).at(spot.line).call)
    }

    /// Whether a task that has begun so many calls has another one in the phases so far, where so many phases have ended. The places
    /// are those of the scenario. Constant time.
    pub fn has_call(&self, scenario: &Scenario, task: u32, begun: u32, phases: u32) -> bool
        requires { ArePlaces scenario.now self.now }
        ensures { IsTrue result ↔ (begun < lines_until scenario.now (phases + 1) task) }
    {
        let _ = scenario;
        match self.find(task, begun as usize) {
            Some(spot) => spot.phase <= phases as usize,
            None => false,
        }
    }
}

/// So many tasks without a line.
fn no_places(alloc: Global, count: usize) -> Result<Places, NoMemory>
    ensures long { IfOk result (λ made. length made ≡ count) }
    ensures none { IfOk result (λ made. (t : ℕ) → spots_of made t ≡ []) }
{
    let mut made = Places::new(alloc);
    for _i in 0..count {
        made.push(alloc)?;
    }
    Ok(made)
}

/// Adds the lines of one phase.
fn add_lines(places: &mut Places, phases: &PhaseList, phase: usize) -> Result<(), NoMemory>
    requires inside { phase < length phases.now }
    requires tasks { AreOfTasks (length places.old) phases.now }
    ensures { OnOk result (AddsLines phases.now phase (length (slice_index_or phases.now phase [])) places.old places.new) }
{
    let lines = phases.at(phase);
    for line in 0..lines.len() {
        places.add(lines.at(line).task, Spot { phase, line })?;
    }
    Ok(())
}

/// Where the lines of each task stand. The time is linear in their number.
pub fn places_of(alloc: Global, scenario: &Scenario) -> Result<Places, NoMemory>
    requires { AreOfTasks (length scenario.now.flags) scenario.now.phases }
    ensures { IfOk result (λ made. ArePlaces scenario.now made) }
{
    let mut places = no_places(alloc, scenario.flags.len())?;
    for phase in 0..scenario.phases.len() {
        add_lines(&mut places, &scenario.phases, phase)?;
    }
    Ok(places)
}

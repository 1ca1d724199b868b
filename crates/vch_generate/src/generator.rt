ghost use Rattle.std.specs.Prelude.{◌≡◌, ◌≤◌, ◌<◌, ◌+◌, ◌∷◌, ◌++◌, [], IfOk, OnOk, length, replicate};
ghost use Rattle.vch_base.specs.Tasks.{at_task};
ghost use Rattle.vch_generate.specs.Generated.{array, both, drawn_content, drawn_maker, generated, group, leaving, lines_of, making, names_after, one_more, taker, tasks, charging};
ghost use Rattle.vch_generate.specs.Generating.{AreFew, IsOnTheWay};
ghost use Rattle.vch_machine.specs.Schedules.{next_seed};

use crate::Draws;
use std::alloc::Global;
use vch_base::limits::USUAL_QUEUE;
use vch_base::{Bytes, Flags, Key, NoMemory, commands, push_word};
use vch_model::{Call, FlagList, Line, LineList, PhaseList, QueueList, Scenario};
use vch_recipe::write_recipe;

/// The number of tasks, and of groups of calls.
const TASKS: u32 = 8;

const GROUPS: u32 = 1024;

/// The array of a group: CREATE of the bank, SELF, and a STORE of four bytes.
#[tactic(auto, unfolding(crate::specs::Generated::array))]
fn array(alloc: Global, content: u32) -> Result<Bytes, NoMemory>
    ensures { IfOk result (λ bytes. bytes ≡ array content) }
{
    let mut out = Vec::new(alloc);
    write_recipe(&mut out, Key::Bank.number(), commands::BANK_CREATE, 0, &[])?;
    write_recipe(
        &mut out,
        Key::Importance.number(),
        commands::IMPORTANCE_SELF,
        0,
        &[],
    )?;
    let mut bytes = Vec::new(alloc);
    bytes.reserve(4)?;
    push_word(&mut bytes, content);
    write_recipe(
        &mut out,
        Key::User.number(),
        commands::USER_DATA_STORE,
        0,
        bytes.as_slice(),
    )?;
    Ok(Bytes::from_vec(out))
}

/// What is drawn for a group of calls, and the names that its voucher gets.
#[derive(Clone, Copy, Debug)]
pub struct Group {
    number: u32,
    maker: u32,
    taker: u32,
    content: u32,
    made_name: u32,
    taken_name: u32,
}

/// What the next group is drawn from, and how many names each task was given so far.
#[derive(Drop)]
struct Drawing {
    draws: Draws,
    names: [u32; 8],
}

impl Drawing {
    /// One name more of a task.
    fn name(&mut self, task: u32) -> u32
        requires task { (1 ≤ task) × (task ≤ tasks) }
        requires few { at_task self.old.names task 0 < 4294967295 }
        ensures name { result ≡ at_task self.new.names task 0 }
        ensures names { self.new.names ≡ one_more self.old.names task }
        ensures draws { self.new.draws ≡ self.old.draws }
    {
        let place = task as usize - 1;
        self.names[place] += 1;
        self.names[place]
    }

    /// The next group.
    fn group(&mut self, number: u32) -> Group
        requires few { AreFew number self.old.names }
        requires number { number < 1024 }
        ensures number { result.number ≡ number }
        ensures maker { result.maker ≡ drawn_maker self.old.draws.seed }
        ensures taker { result.taker ≡ taker result.maker }
        ensures content { result.content ≡ drawn_content self.old.draws.seed }
        ensures made { result.made_name ≡ at_task self.new.names result.maker 0 }
        ensures taken { result.taken_name ≡ at_task self.new.names result.taker 0 }
        ensures names { self.new.names ≡ names_after self.old.names result.maker }
        ensures few { AreFew (number + 1) self.new.names }
        ensures seed { self.new.draws.seed ≡ next_seed (next_seed self.old.draws.seed) }
    {
        let maker = 1 + (self.draws.draw() % 8) as u32;
        let taker = maker % 8 + 1;
        let content = (self.draws.draw() % 64) as u32;
        let made_name = self.name(maker);
        let taken_name = self.name(taker);
        Group {
            number,
            maker,
            taker,
            content,
            made_name,
            taken_name,
        }
    }
}

/// A task makes the voucher of a group and sends it on.
fn push_making(lines: &mut LineList, alloc: Global, drawn: Group) -> Result<(), NoMemory>
    ensures { OnOk result (lines.new ≡ lines.old ++ making drawn.number drawn.maker drawn.taker drawn.content drawn.made_name) }
{
    let bytes = array(alloc, drawn.content)?;
    lines.push(Line {
        task: drawn.maker,
        call: Call::Create { bytes },
    })?;
    lines.push(Line {
        task: drawn.maker,
        call: Call::Send {
            to: drawn.taker,
            moving: false,
            name: drawn.made_name,
            id: drawn.number,
        },
    })
}

/// The other task receives it, and is charged and counted.
fn push_charging(lines: &mut LineList, drawn: Group) -> Result<(), NoMemory>
    ensures { OnOk result (lines.new ≡ lines.old ++ charging drawn.number drawn.taker drawn.taken_name) }
{
    let task = drawn.taker;
    let name = drawn.taken_name;
    lines.push(Line {
        task,
        call: Call::Recv,
    })?;
    lines.push(Line {
        task,
        call: Call::Charge {
            name,
            n: drawn.number,
        },
    })?;
    lines.push(Line {
        task,
        call: Call::Extern {
            name,
            adding: true,
            n: 1,
        },
    })?;
    lines.push(Line {
        task,
        call: Call::Assertions,
    })
}

/// Both give it up.
fn push_leaving(lines: &mut LineList, drawn: Group) -> Result<(), NoMemory>
    ensures { OnOk result (lines.new ≡ lines.old ++ leaving drawn.maker drawn.taker drawn.made_name drawn.taken_name) }
{
    lines.push(Line {
        task: drawn.taker,
        call: Call::GiveUp {
            name: drawn.taken_name,
        },
    })?;
    lines.push(Line {
        task: drawn.maker,
        call: Call::GiveUp {
            name: drawn.made_name,
        },
    })
}

/// The eight calls of a group, behind the lines so far.
fn push_group(lines: &mut LineList, alloc: Global, drawn: Group) -> Result<(), NoMemory>
    ensures { OnOk result (lines.new ≡ lines.old ++ group drawn.number drawn.maker drawn.taker drawn.content drawn.made_name drawn.taken_name) }
{
    push_making(lines, alloc, drawn)?;
    push_charging(lines, drawn)?;
    push_leaving(lines, drawn)
}

/// The calls of all groups.
fn lines(alloc: Global, n: u64) -> Result<LineList, NoMemory>
    ensures { IfOk result (λ lines. lines ≡ lines_of n) }
{
    let mut lines = LineList::new(alloc);
    let mut drawing = Drawing {
        draws: Draws { seed: n },
        names: [0; 8],
    };
    for number in 0..GROUPS {
        let drawn = drawing.group(number);
        push_group(&mut lines, alloc, drawn)?;
    }
    Ok(lines)
}

/// The flags and the limits of so many tasks.
fn tasks(alloc: Global) -> Result<(FlagList, QueueList), NoMemory>
    ensures { IfOk result (λ made. (made.0 ≡ replicate tasks both) × (made.1 ≡ replicate tasks 5)) }
{
    let mut flags = FlagList::new(alloc);
    let mut queues = QueueList::new(alloc);
    for _task in 0..TASKS {
        flags.push(Flags {
            donor: true,
            receiver: true,
        })?;
        queues.push(USUAL_QUEUE)?;
    }
    Ok((flags, queues))
}

/// The scenario of a number: eight tasks that are donors and receivers, and one phase of 1,024 groups of eight calls.
///
/// # Errors
///
/// Out of memory alone.
pub fn generate(alloc: Global, n: u64) -> Result<Scenario, NoMemory>
    ensures { IfOk result (λ scenario. scenario ≡ generated n) }
{
    let (flags, queues) = tasks(alloc)?;
    let lines = lines(alloc, n)?;
    let mut phases = PhaseList::new(alloc);
    phases.push(lines)?;
    Ok(Scenario {
        version: 1,
        flags,
        queues,
        phases,
    })
}

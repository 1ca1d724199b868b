ghost use Rattle.std.specs.Prelude.{◌≡◌, ◌≤◌, ◌<◌, ◌+◌, ◌-◌, ◌++◌, ◌∷◌, [], None, Some, IfSome, IfOk, OnOk, OnErr, length, slice_set};
ghost use Rattle.vch_parts.specs.Framed.{working_of, frame_of, with_frame_of, begun_of, with_begun_of, all_resting};

use crate::Frame;
use std::alloc::Global;
use std::marker::Model;
use vch_base::NoMemory;

/// How many of its calls a task has begun, and the frame of the call that is under way.
#[derive(Drop)]
pub struct Working {
    pub begun: u32,
    pub frame: Option<Frame>,
}

/// What each task works at: the tasks 1, 2, 3 and so on, in their order.
#[derive(Drop)]
pub struct Frames {
    items: Vec<Working>,
}

impl Model for Frames {
    ghost use Rattle.std.specs.Prelude.{List};
    ghost use Rattle.vch_parts.specs.declared.frames.Working.{Working};

    ghost Value = { List Working };

    ghost view = { λ f. f.items.items };
}

impl Frames {
    /// No task. It takes no memory.
    pub fn new(alloc: Global) -> Frames
        ensures { result ≡ [] }
    {
        Frames {
            items: Vec::new(alloc),
        }
    }

    /// One more task, which has begun no call. The one error is out of memory.
    pub fn push(&mut self) -> Result<(), NoMemory>
        ensures ok { OnOk result (self.new ≡ self.old ++ record { begun = 0; frame = None } ∷ []) }
        ensures err { OnErr result (self.new ≡ self.old) }
    {
        self.items.push(Working {
            begun: 0,
            frame: None,
        })?;
        Ok(())
    }

    /// How many tasks there are.
    pub fn len(&self) -> usize
        ensures { result ≡ length self.now }
    {
        self.items.len()
    }

    /// What a task works at.
    pub fn at(&self, task: u32) -> &Working
        requires task { (0 < task) × (task ≤ length self.now) }
        ensures { result.now ≡ working_of self.now task }
    {
        &self.items[task as usize - 1]
    }

    /// Takes a task's frame out; the task has none then.
    #[tactic(auto, using(crate::proofs::framing::Put::as_many))]
    pub fn take(&mut self, task: u32) -> Option<Frame>
        requires task { (0 < task) × (task ≤ length self.old) }
        ensures frame { result ≡ frame_of self.old task }
        ensures gone { self.new ≡ with_frame_of self.old task None }
        ensures many { length self.new ≡ length self.old }
    {
        self.items[task as usize - 1].frame.take()
    }

    /// Gives a task a frame, or none, in place of what it had.
    pub fn put(&mut self, task: u32, frame: Option<Frame>)
        requires task { (0 < task) × (task ≤ length self.old) }
        ensures { self.new ≡ with_frame_of self.old task frame }
    {
        self.items[task as usize - 1].frame = frame;
    }

    /// Counts one more call of a task as begun, and answers its number.
    pub fn begin(&mut self, task: u32) -> u32
        requires task { (0 < task) × (task ≤ length self.old) }
        requires room { begun_of self.old task < 4294967295 }
        ensures number { result ≡ begun_of self.old task + 1 }
        ensures frames { self.new ≡ with_begun_of self.old task }
    {
        let working = &mut self.items[task as usize - 1];
        working.begun += 1;
        working.begun
    }
}

/// So many tasks that have begun no call. The one error is out of memory.
pub fn fresh_frames(alloc: Global, count: usize) -> Result<Frames, NoMemory>
    ensures { IfOk result (λ made. made ≡ all_resting count) }
{
    let mut made = Frames::new(alloc);
    for _i in 0..count {
        made.push()?;
    }
    Ok(made)
}

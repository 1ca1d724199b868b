ghost use Rattle.std.specs.Prelude.{◌≡◌};
ghost use Rattle.vch_machine.specs.Beginning as beginning;
ghost use Rattle.vch_machine.specs.Frames as frames;
ghost use Rattle.vch_machine.specs.State as machine;

use crate::handles::{Handles, Place};
use std::alloc::Global;
use std::marker::Model;
use vch_base::Key;

/// A name of a task: the voucher that it names, and its user references.
#[derive(Drop)]
pub struct Named {
    pub name: u32,
    pub voucher: Handles,
    pub refs: u32,
}

impl Model for Named {
    ghost use Rattle.vch_machine.specs.State as machine;

    ghost Value = { machine.Named };

    ghost view = { λ n. record { name = n.name; voucher = n.voucher; refs = n.refs } };
}

/// A queued message: who sent it, its id, and the voucher in it or none.
#[derive(Drop)]
pub struct Message {
    pub sender: u32,
    pub id: u32,
    pub voucher: Option<Handles>,
}

impl Model for Message {
    ghost use Rattle.vch_machine.specs.State as machine;

    ghost Value = { machine.Message };

    ghost view = { λ q. record { sender = q.sender; id = q.id; voucher = q.voucher } };
}

/// The right and the duty to ask a manager to take a value back.
#[derive(Drop)]
pub struct Claim {
    pub place: Place,
    /// The value was given out again before the question.
    pub raced: bool,
    /// A reference was taken since the claim began.
    pub back: bool,
    /// What the manager answered, once it was asked.
    pub answer: Option<bool>,
}

impl Model for Claim {
    ghost use Rattle.vch_machine.specs.State as machine;

    ghost Value = { machine.Claim };

    ghost view = { λ c. record { place = c.place; raced = c.raced; back = c.back; answer = c.answer } };
}

/// What one call still has to do.
#[derive(Drop)]
pub struct Frame {
    /// The voucher that the call makes: none once it is answered, and always none for an exit.
    pub forming: Option<Handles>,
    pub answered: bool,
    /// Where the next record of a create begins.
    pub at_byte: usize,
    /// The keys that are still to be asked.
    pub keys: Vec<Key>,
    /// A reference that a manager gave and that was not taken yet.
    pub receipt: Option<Place>,
    /// The references that are still to be let go, the next one first.
    pub lets: Vec<Place>,
    pub claim: Option<Claim>,
}

impl Model for Frame {
    ghost use Rattle.vch_machine.specs.State as machine;

    ghost Value = { machine.Frame };

    ghost view = { λ f. record { forming = f.forming; answered = f.answered; at_byte = f.at_byte; keys = f.keys.items; receipt = f.receipt; lets = f.lets.items; claim = f.claim } };
}

impl Frame {
    /// The frame of a call that forms a voucher, with the keys that it has to ask.
    pub fn fresh(alloc: Global, voucher: &Handles, keys: Vec<Key>) -> Frame
        ensures { result ≡ beginning.fresh_frame voucher.now keys.items }
    {
        Frame {
            forming: Some(*voucher),
            answered: false,
            at_byte: 0,
            keys,
            receipt: None,
            lets: Vec::new(alloc),
            claim: None,
        }
    }

    /// The frame of a call that is answered and lets handles go.
    pub fn leaving(alloc: Global, lets: Vec<Place>) -> Frame
        ensures { result ≡ beginning.leaving_frame lets.items }
    {
        Frame {
            forming: None,
            answered: true,
            at_byte: 0,
            keys: Vec::new(alloc),
            receipt: None,
            lets,
            claim: None,
        }
    }

    /// The frame of an exit, which forms no voucher.
    pub fn exiting(alloc: Global) -> Frame
        ensures { result ≡ beginning.exiting_frame }
    {
        Frame {
            forming: None,
            answered: false,
            at_byte: 0,
            keys: Vec::new(alloc),
            receipt: None,
            lets: Vec::new(alloc),
            claim: None,
        }
    }

    /// The frame, or none where its call is answered and it has nothing left to do.
    pub fn closed(self) -> Option<Frame>
        ensures { result ≡ frames.closed self }
    {
        if !self.answered
            || self.receipt.is_some()
            || self.claim.is_some()
            || !self.lets.is_empty()
        {
            Some(self)
        } else {
            None
        }
    }
}

/// A task: its names in the order in which they were given, the next name, its queue, how many of its calls were begun, and
/// its frame while a call is under way.
#[derive(Drop)]
pub struct Tasked {
    pub names: Vec<Named>,
    pub next: u32,
    pub queue: Vec<Message>,
    pub begun: u32,
    pub frame: Option<Frame>,
}

impl Model for Tasked {
    ghost use Rattle.vch_machine.specs.State as machine;

    ghost Value = { machine.Tasked };

    ghost view = { λ t. record { names = t.names.items; next = t.next; queue = t.queue.items; begun = t.begun; frame = t.frame } };
}

impl Tasked {
    /// A task that has done nothing.
    pub fn idle(alloc: Global) -> Tasked
        ensures { result ≡ machine.idle }
    {
        Tasked {
            names: Vec::new(alloc),
            next: 1,
            queue: Vec::new(alloc),
            begun: 0,
            frame: None,
        }
    }
}

use crate::Kind;

/// Something that is told of each event that a task did, after the event and with no lock held.
///
/// A gate may look and wait: it lets a test hold a task between two events. It changes nothing that a contract sees.
pub trait Gate {
    /// The task did an event of this kind; the next of its call is given too, or nothing where the call is done.
    fn pass(&self, task: u32, did: Kind, next: Option<Kind>);
}

/// A gate that lets every task pass at once.
#[derive(Clone, Copy, Debug)]
pub struct OpenGate;

impl Gate for OpenGate {
    fn pass(&self, _task: u32, _did: Kind, _next: Option<Kind>) {}
}

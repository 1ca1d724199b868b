ghost use Rattle.std.specs.Prelude.{◌≡◌, ◌||◌, not};
ghost use Rattle.std.specs.List.{list_any, flat_map};
ghost use Rattle.vch_machine.specs.State as machine;

use crate::handles::{Place, option_has};
use crate::names::{names_hold, queue_holds};
use crate::task::{Claim, Frame, Tasked};

/// Whether some place of a list is this one.
fn is_among(places: &[Place], place: &Place) -> bool
    ensures { result ≡ list_any (λ q. machine.same_place q place.now) places.now }
{
    for other in places {
        if other.same(place) {
            return true;
        }
    }
    false
}

/// Whether a frame holds a place: it is forming a voucher with it, or has still to let it go.
fn frame_holds(frame: &Option<Frame>, place: &Place) -> bool
    ensures { result ≡ machine.frame_holds frame.now place.now }
{
    match frame {
        Some(frame) => option_has(&frame.forming, place) || is_among(frame.lets.as_slice(), place),
        None => false,
    }
}

/// Whether a name, a queued message or the frame of a task holds a place.
fn task_holds(task: &Tasked, place: &Place) -> bool
    ensures { result ≡ machine.task_holds place.now task.now }
{
    names_hold(task.names.as_slice(), place)
        || queue_holds(task.queue.as_slice(), place)
        || frame_holds(&task.frame, place)
}

/// Whether some task holds a place.
pub fn holds(tasks: &[Tasked], place: &Place) -> bool
    ensures { result ≡ list_any (machine.task_holds place.now) tasks.now }
{
    for task in tasks {
        if task_holds(task, place) {
            return true;
        }
    }
    false
}

/// Whether a place that may be none is this one.
fn is_place(receipt: &Option<Place>, place: &Place) -> bool
    ensures { result ≡ machine.is_place receipt.now place.now }
{
    match receipt {
        Some(other) => other.same(place),
        None => false,
    }
}

/// Whether a frame has a receipt for a place.
fn frame_expects(frame: &Option<Frame>, place: &Place) -> bool
    ensures { result ≡ machine.frame_expects frame.now place.now }
{
    match frame {
        Some(frame) => is_place(&frame.receipt, place),
        None => false,
    }
}

/// Whether some frame has a receipt for a place.
pub fn expects(tasks: &[Tasked], place: &Place) -> bool
    ensures { result ≡ list_any (λ (t : machine.Tasked). machine.frame_expects t.frame place.now) tasks.now }
{
    for task in tasks {
        if frame_expects(&task.frame, place) {
            return true;
        }
    }
    false
}

/// Whether a claim that may be none is on a place.
fn is_claim_at(claim: &Option<Claim>, place: &Place) -> bool
    ensures { result ≡ not (machine.is_empty (machine.claim_at claim.now place.now)) }
{
    match claim {
        Some(claim) => claim.place.same(place),
        None => false,
    }
}

/// Whether a frame has a claim on a place.
fn frame_claims(frame: &Option<Frame>, place: &Place) -> bool
    ensures { result ≡ not (machine.is_empty (machine.frame_claims frame.now place.now)) }
{
    match frame {
        Some(frame) => is_claim_at(&frame.claim, place),
        None => false,
    }
}

/// Whether some task has a claim on a place.
pub fn claims(tasks: &[Tasked], place: &Place) -> bool
    ensures { result ≡ not (machine.is_empty (flat_map (λ (t : machine.Tasked). machine.frame_claims t.frame place.now) tasks.now)) }
{
    for task in tasks {
        if frame_claims(&task.frame, place) {
            return true;
        }
    }
    false
}

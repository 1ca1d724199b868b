//! Two tasks that make counts in one row at the same time, each with a seat of its own.
ghost use Rattle.std.specs.Prelude.{◌≡◌, ◌≢◌, ◌≤◌, ◌<◌, ◌+◌, ◌*◌, ℕ, min, Some, None, IfOk};
ghost use Rattle.vch_made.specs.Seats.{own_at};
ghost use Rattle.vch_made.specs.declared.row.Rel.TheVariants as rel;
ghost use Rattle.vouch_drill.specs.Counts.{slot_count, HasMade, HoldsFirst};
ghost use Rattle.vouch_drill.specs.Words.{most_rounds};

use crate::counts::Counts;
use std::alloc::Global;
use std::thread;
use std::thread::Threads;
use vch_base::{Gate, Kind, NoMemory};
use vch_made::{MadeRow, Make, Rel, Seat};

/// The slots of the row.
const SLOTS: u32 = 8;

/// A seat after some makes, and how many of them found their slot released.
#[derive(Drop)]
struct Maker {
    seat: Seat,
    dead: u64,
}

/// The make of a round: each slot has its turn.
fn make_one(row: &MadeRow, maker: &mut Maker, round: u32)
    requires slots { row.now.slots ≡ slot_count }
    requires before { HasMade row.now round maker.old.seat maker.old.dead }
    requires room { 1 ≤ maker.old.seat.room }
    ensures after { HasMade row.now (round + 1) maker.new.seat maker.new.dead }
    ensures room { maker.new.seat.room + 1 ≡ maker.old.seat.room }
{
    match row.make(&mut maker.seat, round % SLOTS) {
        Make::Made { .. } => {}
        Make::Dead => maker.dead += 1,
    }
}

/// Makes so many counts, slot after slot, and passes the gate after each.
fn make_all<G: Gate>(row: &MadeRow, seat: Seat, task: u32, rounds: u32, gate: &G) -> Maker
    requires slots { row.now.slots ≡ slot_count }
    requires unused { HasMade row.now 0 seat 0 }
    requires room { seat.room ≡ rounds }
    ensures made { HasMade row.now rounds result.seat result.dead }
    ensures room { result.seat.room ≡ 0 }
{
    let mut maker = Maker { seat, dead: 0 };
    for round in 0..rounds {
        make_one(row, &mut maker, round);
        gate.pass(task, Kind::Make, None);
    }
    maker
}

/// Both tasks at the same time, with seats of equal room.
fn make_at_once<R: Threads + Sync, G: Gate + Sync>(
    rt: &R,
    row: &MadeRow,
    seats: (Seat, Seat),
    rounds: u32,
    gate: &G,
) -> (Maker, Maker)
    requires slots { row.now.slots ≡ slot_count }
    requires unused { HasMade row.now 0 seats.0 0 × HasMade row.now 0 seats.1 0 }
    requires room { (seats.0.room ≡ rounds) × (seats.1.room ≡ rounds) }
    ensures first { HasMade row.now rounds result.0.seat result.0.dead × (result.0.seat.room ≡ 0) }
    ensures second { HasMade row.now rounds result.1.seat result.1.dead × (result.1.seat.room ≡ 0) }
{
    let (first, second) = seats;
    thread::join(
        rt,
        move ||
            requires { (row.now.slots ≡ slot_count) × HasMade row.now 0 first 0 × (first.room ≡ rounds) }
            ensures { HasMade row.entry.now rounds result.seat result.dead × (result.seat.room ≡ 0) }
        { make_all(row, first, 1, rounds, gate) },
        move ||
            requires { (row.now.slots ≡ slot_count) × HasMade row.now 0 second 0 × (second.room ≡ rounds) }
            ensures { HasMade row.entry.now rounds result.seat result.dead × (result.seat.room ≡ 0) }
        { make_all(row, second, 2, rounds, gate) },
    )
}

/// Releases a slot where the seat has a count of it.
fn release_held(row: &MadeRow, seat: &mut Seat, slot: u32) -> Option<Rel>
    requires row { seat.old.row ≡ row.now }
    requires slot { slot < row.now.slots }
    requires alone { seat.old.room + seat.old.tries ≡ row.now.makes }
    ensures row { seat.new.row ≡ seat.old.row }
    ensures room { (seat.new.room ≡ seat.old.room) × (seat.new.tries ≡ seat.old.tries) }
    ensures others { (other : ℕ) → other ≢ slot → own_at other seat.new ≡ own_at other seat.old }
    ensures held { 1 ≤ own_at slot seat.old → result ≡ Some rel.Released }
    ensures unheld { own_at slot seat.old ≡ 0 → result ≡ None }
{
    if seat.own(slot) == 0 {
        return None;
    }
    Some(row.release(seat, slot))
}

/// Releases every slot that the seat has a count of. How many were released, and how many others raced.
fn release_all(row: &MadeRow, seat: &mut Seat) -> (u64, u64)
    requires row { seat.old.row ≡ row.now }
    requires slots { row.now.slots ≡ slot_count }
    requires alone { seat.old.room + seat.old.tries ≡ row.now.makes }
    ensures tries { seat.new.tries ≡ seat.old.tries }
    ensures answers { (n : ℕ) → HoldsFirst n seat.old → (result.0 ≡ min n slot_count) × (result.1 ≡ 0) }
{
    let mut released = 0;
    let mut raced = 0;
    for slot in 0..SLOTS {
        match release_held(row, seat, slot) {
            Some(Rel::Released) => released += 1,
            Some(Rel::Raced { .. }) => raced += 1,
            None => {}
        }
    }
    (released, raced)
}

/// Two tasks make so many counts each; their seats are joined, and every slot with a count is released.
pub fn count_rounds<R: Threads + Sync, G: Gate + Sync>(
    rt: &R,
    alloc: Global,
    rounds: u32,
    gate: &G,
) -> Result<Counts, NoMemory>
    requires { rounds ≤ most_rounds }
    ensures { IfOk result (λ counts. counts ≡ record { makes = 2 * rounds; dead = 0; released = min rounds slot_count; raced = 0 }) }
{
    let each = u64::from(rounds);
    let (row, mut first) = MadeRow::open(alloc, SLOTS, 2 * each)?;
    let second = row.split(&mut first, each)?;
    let (first, second) = make_at_once(rt, &row, (first, second), rounds, gate);
    let dead = first.dead + second.dead;
    let mut seat = first.seat;
    row.join(&mut seat, second.seat);
    let (released, raced) = release_all(&row, &mut seat);
    Ok(Counts {
        makes: seat.tries(),
        dead,
        released,
        raced,
    })
}

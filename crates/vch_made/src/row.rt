ghost use Rattle.std.specs.Prelude.{◌≡◌, ◌≤◌, ◌<◌, ◌+◌, ◌-◌, ℕ, true, false, replicate, IfOk, IfErr};
ghost use Rattle.vch_made.specs.Seats.{Row, Seated, own_at, dead_at, new_seat, most_makes};
ghost use Rattle.vch_made.specs.SeatSteps.{CountsOneStep, MakeGives, ReleaseGives, seat_of_both, NoneDeadIsHeld, FreedAllDead};
ghost use Rattle.vch_made.specs.declared.row.Make.TheVariants as make;
ghost use Rattle.vch_made.specs.declared.row.Rel.TheVariants as rel;

use crate::lists::{add_counts, none_marked, unite_marks, zeros};
use crate::plays::{Cut, Glue, LookStep, MakeStep, OfferStep, ReleaseStep};
use crate::seat::Seat;
use crate::view::{Counting, Terms, View};
use atomic_table::Table;
use std::alloc::Global;
use std::marker::Model;
use vch_base::NoMemory;

/// The mark: the word of a released slot, before any make that came too late.
const RELEASED: u64 = 0x8000_0000_0000_0000;

/// The answer of a make.
#[derive(Clone, Copy, Debug, PartialEq, Eq)]
pub enum Make {
    /// The slot was in use. The seat now has this many counts of it.
    Made { own: u64 },
    /// The slot is released.
    Dead,
}

/// The answer of a release.
#[derive(Clone, Copy, Debug, PartialEq, Eq)]
pub enum Rel {
    /// The seat held every made count of the slot, which is now released.
    Released,
    /// Another seat has counts of the slot: the word was `now`, which is not the seat's own count.
    Raced { now: u64 },
}

/// A row of slots, each with the word of its made counts. It may be shared between threads, and its seats may move between them.
///
/// `open`, `split` and `join` take time in the number of slots, every other call constant time. Only `open` and `split` take
/// memory. No call waits.
///
/// A seat belongs to the row whose `open` or `split` gave it; each call has the condition that its seats belong to this row.
#[derive(Drop)]
pub struct MadeRow {
    table: Table<(), View, Terms, Counting, Global>,
    alloc: Global,
    slots: u32,
    makes: u64,
}

impl Model for MadeRow {
    ghost use Rattle.vch_made.specs.Seats.{Row};
    ghost use Rattle.vch_made.specs.Fits.{RowFits};

    ghost Value = { Row };

    ghost view = { λ r. record { table = r.table.shared.table_id; slots = r.slots; makes = r.makes } };

    ghost invariant = { λ r. RowFits r.table.shared.table_id r.table.shared.key r.slots r.makes };
}

impl MadeRow {
    /// A row of so many slots in use with no counts, and a seat that may do all makes.
    ///
    /// # Errors
    ///
    /// Out of memory, and nothing else.
    pub fn open(alloc: Global, slots: u32, makes: u64) -> Result<(MadeRow, Seat), NoMemory>
        requires slots { 1 ≤ slots }
        requires makes { makes < most_makes }
        ensures { IfOk result (λ r. (r.0.slots ≡ slots) × (r.0.makes ≡ makes) × (r.1 ≡ new_seat r.0 (replicate slots false) makes)) }
    {
        let count = slots as usize;
        let words = zeros(alloc, count)?;
        let own = zeros(alloc, count)?;
        let dead = none_marked(alloc, count)?;
        let terms = Terms {
            slots: u64::from(slots),
            makes,
        };
        let (table, token) = Table::of_words(alloc, words.as_slice(), &terms)?;
        let row = MadeRow {
            table,
            alloc,
            slots,
            makes,
        };
        let seat = Seat {
            token,
            own,
            dead,
            room: makes,
            tries: 0,
        };
        Ok((row, seat))
    }

    /// How many slots the row has.
    pub fn slots(&self) -> u32
        ensures { result ≡ self.now.slots }
    {
        self.slots
    }

    /// How many makes all seats together may do.
    pub fn makes(&self) -> u64
        ensures { result ≡ self.now.makes }
    {
        self.makes
    }

    /// One more made count of a slot, unless the slot is released. Either way it is one of the seat's makes.
    ///
    /// It is one fetch and add. On a released slot it raises the word too, above the mark, where nobody reads it as a count.
    pub fn make(&self, seat: &mut Seat, slot: u32) -> Make
        requires row { seat.old.row ≡ self.now }
        requires slot { slot < self.now.slots }
        requires room { 1 ≤ seat.old.room }
        ensures row { seat.new.row ≡ seat.old.row }
        ensures room { seat.new.room + 1 ≡ seat.old.room }
        ensures tries { seat.new.tries ≡ seat.old.tries + 1 }
        ensures step { CountsOneStep seat.old slot seat.new }
        ensures freed { seat.new.freed ≡ seat.old.freed }
        ensures answer { MakeGives seat.old slot result seat.new }
        ensures known { dead_at slot seat.old ≡ true → result ≡ make.Dead }
    {
        let at = slot as usize;
        let found = self
            .table
            .shared
            .fetch_add::<MakeStep>(&mut seat.token, at, 1);
        seat.room -= 1;
        seat.tries += 1;
        if found >= RELEASED {
            seat.dead[at] = true;
            return Make::Dead;
        }
        seat.own[at] += 1;
        Make::Made { own: seat.own[at] }
    }

    /// Releases a slot, unless another seat has a count of it.
    ///
    /// It is one compare and exchange, from the seat's own count to the mark. That settles the race with a new made count:
    ///
    /// ```text
    /// seat a: release, own 1            seat b: make
    /// the word is 1: the mark           the word is the mark: dead
    ///
    ///                                   the word is 1: made, the word is 2
    /// the word is 2: raced
    /// ```
    ///
    /// A seat that has all the room and all the makes of the row, as one to which every other was joined, is never raced.
    pub fn release(&self, seat: &mut Seat, slot: u32) -> Rel
        requires row { seat.old.row ≡ self.now }
        requires slot { slot < self.now.slots }
        requires held { 1 ≤ own_at slot seat.old }
        ensures row { seat.new.row ≡ seat.old.row }
        ensures room { (seat.new.room ≡ seat.old.room) × (seat.new.tries ≡ seat.old.tries) }
        ensures step { CountsOneStep seat.old slot seat.new }
        ensures answer { ReleaseGives seat.old slot result seat.new }
        ensures alone { seat.old.room + seat.old.tries ≡ self.now.makes → result ≡ rel.Released }
    {
        let at = slot as usize;
        let own = seat.own[at];
        let found = self
            .table
            .shared
            .compare_exchange::<ReleaseStep>(&mut seat.token, at, own, RELEASED);
        if found != own {
            return Rel::Raced { now: found };
        }
        seat.own[at] = 0;
        seat.dead[at] = true;
        Rel::Released
    }

    /// A new seat with part of a seat's room, no counts and no makes, which knows the same slots to be released.
    ///
    /// # Errors
    ///
    /// Out of memory, and nothing else; the seat is then as it was.
    pub fn split(&self, seat: &mut Seat, room: u64) -> Result<Seat, NoMemory>
        requires row { seat.old.row ≡ self.now }
        requires room { room ≤ seat.old.room }
        ensures new { IfOk result (λ s. s ≡ new_seat self.now seat.old.dead room) }
        ensures old { IfOk result (λ s. seat.new ≡ record seat.old { room = seat.old.room - room }) }
        ensures unchanged { IfErr result (λ e. seat.new ≡ seat.old) }
    {
        let own = zeros(self.alloc, self.slots as usize)?;
        let dead = seat.dead.clone()?;
        self.table
            .shared
            .compare_exchange::<OfferStep>(&mut seat.token, 0, room, room);
        let token = self.table.shared.split_seat::<Cut>(&mut seat.token);
        seat.room -= room;
        let tries = 0;
        Ok(Seat {
            token,
            own,
            dead,
            room,
            tries,
        })
    }

    /// Gives all that a seat has to another one: its counts, its room and its makes, and which slots it knows to be released and
    /// released itself. It takes no memory.
    ///
    /// It looks at the row once, which tells that the seat's sums fit and that no slot that it knows to be released has a count.
    pub fn join(&self, into: &mut Seat, seat: Seat)
        requires into { into.old.row ≡ self.now }
        requires seat { seat.row ≡ self.now }
        ensures sums { into.new ≡ seat_of_both into.old seat }
        ensures unheld { NoneDeadIsHeld into.new }
        ensures freed { into.new.room + into.new.tries ≡ self.now.makes → FreedAllDead into.new }
    {
        let Seat {
            token,
            own,
            dead,
            room,
            tries,
        } = seat;
        self.table.shared.join_seat::<Glue>(&mut into.token, token);
        self.table.shared.load::<LookStep>(&mut into.token, 0);
        add_counts(&mut into.own, &own);
        unite_marks(&mut into.dead, &dead);
        into.room += room;
        into.tries += tries;
    }
}

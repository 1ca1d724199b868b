ghost use Rattle.std.specs.Prelude.{◌≡◌, ◌<◌, slice_index, slice_index_or, false};
ghost use Rattle.vch_made.specs.Seats.{Row, Seated, own_at, dead_at};

use crate::view::View;
use std::marker::Model;

/// One task's made counts in a row. It may move between threads. Each call takes constant time.
///
/// Beside what its calls return, contracts see which slots it released itself, how often it stepped on the word of each slot,
/// and the word that the last of these steps met.
#[derive(Drop)]
pub struct Seat {
    pub(crate) token: atomic_table::Seat<(), View>,
    pub(crate) own: Vec<u64>,
    pub(crate) dead: Vec<bool>,
    pub(crate) room: u64,
    pub(crate) tries: u64,
}

impl Model for Seat {
    ghost use Rattle.vch_made.specs.Seats.{Row, Seated};
    ghost use Rattle.vch_made.specs.Fits.{SeatFits, row_of};

    ghost Value = { Seated };

    ghost view = { λ s. record { row = row_of s.token.table_id s.token.me.0; own = s.own.items; dead = s.dead.items; room = s.room; tries = s.tries; freed = s.token.me.0.freed; steps = s.token.me.0.steps; met = s.token.me.0.met } };

    ghost invariant = { λ s. SeatFits s.token.me s.own.items s.dead.items s.room s.tries };
}

impl Seat {
    /// The made counts of a slot that the seat holds.
    pub fn own(&self, slot: u32) -> u64
        requires { slot < self.now.row.slots }
        ensures { result ≡ own_at slot self.now }
    {
        self.own[slot as usize]
    }

    /// Whether the seat knows that a slot is released.
    pub fn knows_dead(&self, slot: u32) -> bool
        requires { slot < self.now.row.slots }
        ensures { result ≡ dead_at slot self.now }
    {
        self.dead[slot as usize]
    }

    /// The makes that the seat may still do.
    pub fn room(&self) -> u64
        ensures { result ≡ self.now.room }
    {
        self.room
    }

    /// The makes that the seat did, whether the slot was in use or released.
    pub fn tries(&self) -> u64
        ensures { result ≡ self.now.tries }
    {
        self.tries
    }
}

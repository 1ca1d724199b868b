//! A row may be shared between threads, and a seat may move between them.
use crate::row::MadeRow;
use crate::seat::Seat;

fn may_move<T: Send>(_value: &T) {}

fn may_be_shared<T: Send + Sync>(_value: &T) {}

/// This is proved only where a row may be shared and a seat may move.
fn cross_threads(row: &MadeRow, seat: &Seat) {
    may_be_shared(row);
    may_move(seat);
}

ghost use Rattle.std.specs.Prelude.{◌≡◌, if◌then◌else◌, Some, None};

use vch_books::{Message, Numbers};

/// What an entry of a call does to the books.
#[derive(Clone, Copy, Debug)]
pub enum Effect {
    /// Nothing.
    Stay,
    /// It changes the external count of the list that a name's voucher has, by its number.
    Count {
        name: u32,
        number: u32,
        adding: bool,
        n: u32,
    },
    /// It charges the bank value that a name's voucher has, by its number.
    Charge {
        name: u32,
        number: u32,
        n: u32,
    },
    /// It gives its task a voucher.
    Give {
        voucher: Numbers,
    },
    /// It takes a user reference from a name.
    LetGo {
        name: u32,
    },
    /// It appends a message to a queue.
    Send {
        to: u32,
        message: Message,
    },
    /// It does so, and takes a user reference from a name.
    SendMoved {
        to: u32,
        message: Message,
        name: u32,
    },
    /// It takes the first message, which has no voucher.
    Receive,
    /// It takes the first message, and gives its task a voucher.
    ReceiveVoucher {
        voucher: Numbers,
    },
}

/// An effect where the reply is right.
pub fn where_right(right: bool, effect: Effect) -> Option<Effect>
    ensures { result ≡ (if right then Some effect else None) }
{
    if right { Some(effect) } else { None }
}

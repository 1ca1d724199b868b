use vch_table::Indices;

/// A queued message: its sender, its number, and its voucher, if it has one.
#[derive(Drop)]
pub struct Message {
    pub sender: u32,
    pub id: u32,
    pub voucher: Option<Indices>,
}

/// The name that a task got for a voucher, and whether some name or message had the voucher before.
#[derive(Clone, Copy, Debug, PartialEq, Eq)]
pub struct Given {
    pub name: u32,
    pub was_known: bool,
}

/// A message that was taken from its queue, and its voucher where no name and no message has it any more.
#[derive(Drop)]
pub struct Taken {
    pub sender: u32,
    pub id: u32,
    pub orphan: Option<Indices>,
}

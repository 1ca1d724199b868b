use crate::Numbers;

/// A name of a task, its voucher, and the user references to it.
#[derive(Clone, Copy, Debug)]
pub struct Named {
    pub name: u32,
    pub voucher: Numbers,
    pub refs: u64,
}

/// A queued message.
#[derive(Clone, Copy, Debug)]
pub struct Message {
    pub sender: u32,
    pub id: u32,
    pub voucher: Option<Numbers>,
}

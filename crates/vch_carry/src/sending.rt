/// What a `send` says: the task that it is to, whether the name moves with it, the name, and the number of the message.
#[derive(Clone, Copy, Debug)]
pub struct Sending {
    pub to: u32,
    pub moving: bool,
    pub name: u32,
    pub id: u32,
}

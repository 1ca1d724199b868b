/// How often the calls of a drill returned each answer.
#[derive(Clone, Copy, Debug, PartialEq, Eq)]
pub struct Counts {
    pub makes: u64,
    pub dead: u64,
    pub released: u64,
    pub raced: u64,
}

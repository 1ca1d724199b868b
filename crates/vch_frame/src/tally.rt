/// How many claims were taken by a LetGo, references by a Refer, and questions asked by an Ask.
#[derive(Clone, Copy, Debug, PartialEq, Eq)]
pub struct Tally {
    pub claims: u64,
    pub refers: u64,
    pub asks: u64,
}

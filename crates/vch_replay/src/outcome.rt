/// What a command comes to: the text that answers it, or the line that says why the input is refused.
#[derive(Drop)]
pub enum Outcome {
    Answered { text: Vec<u8> },
    Refused { line: Vec<u8> },
}

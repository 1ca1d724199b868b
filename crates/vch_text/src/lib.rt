//! The words of a line of text: spaces, numbers and hexadecimal digits, read and written in one
//! way.
//!
//! A scenario and a report are texts of lines. A line is words with exactly one space between two
//! of them. This crate cuts a text into its lines and a line into its words, reads a word that
//! spells a number or bytes, and writes them. It knows no line of either text: what a line may be
//! is said by the crates above.
//!
//! Its one invariant is that a reader of a line never copies. What is left of a line is a slice
//! that begins with the space before the next word, or that is empty at the end of the line; so two
//! spaces, or one at either end, are an empty word, which spells nothing.
//!
//! ```text
//! let (line, text) = next_line(text)?;         // `1 drop 7`
//! let (task, rest) = front(b' ', line);        // `1` and ` drop 7`
//! let (verb, rest) = word(rest)?;              // `drop` and ` 7`
//! let name = one_number(rest)?;                       // 7, and nothing follows
//! ```
#![tactic(auto)]

mod digits;
mod laws;
mod lines;
mod numbers;
mod push;
#[cfg(test)]
mod tests;
mod words;

pub use digits::{HexFault, hex_bytes};
pub use laws::{lines_rejoin, numerals};
pub use lines::next_line;
pub use numbers::{
    TOP, number, number_in, one_number, parse_u32, parse_u64, parse_u128, two_numbers,
};
pub use push::{push_hex, push_number, push_spaced, push_text};
pub use words::{end, front, is_word, word};

//! A drill of counts that tasks of their own keep together: its words and standard output, handed to `drill`.
//!
//! Its one invariant is that nothing is half done: the text is made whole before the first byte of it is written.
//!
//! The status is that of `drill`, and 7 where the words can't be had (one of them is no UTF-8, or memory runs out).
#![tactic(auto)]

mod counts;
mod made;
mod run;
mod stream;
mod text;
mod words;

use run::drill;
use std::process::ExitCode;
use std::{env, io};
use stream::Output;
use vch_base::OpenGate;

#[cfg(test)]
mod tests;

/// The status where the words can't be had.
const NO_WORDS: u8 = 7;

fn main(rt: HostRuntime) -> ExitCode {
    let alloc = rt.alloc();
    let Ok(words) = env::args(&rt) else {
        return ExitCode::from(NO_WORDS);
    };
    let Ok(words) = words.skip(1).collect::<Vec<String>>(alloc) else {
        return ExitCode::from(NO_WORDS);
    };
    let mut sink = Output::new(io::writer(&rt));
    ExitCode::from(drill(&rt, alloc, words.as_slice(), &mut sink, &OpenGate))
}

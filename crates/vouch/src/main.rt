//! The command: its words, standard input and standard output, handed to `run_over`, and its status.
//!
//! Where the words can't be had (one of them is no UTF-8, or memory runs out) the status is 7, and nothing is read or written.
#![tactic(auto)]

mod faults;
mod input;
mod output;
mod run;

use run::run_over;
use std::process::ExitCode;
use std::{env, io};

#[cfg(test)]
mod tests;

fn main(rt: HostRuntime) -> ExitCode {
    let alloc = rt.alloc();
    let Ok(words) = env::args(&rt) else {
        return ExitCode::from(7);
    };
    let Ok(words) = words.skip(1).collect::<Vec<String>>(alloc) else {
        return ExitCode::from(7);
    };
    ExitCode::from(run_over(alloc, words.as_slice(), rt.reader(), io::writer(&rt)))
}

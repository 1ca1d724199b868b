ghost use Rattle.std.specs.Prelude.{◌≡◌, ◌≢◌, ◌⊎◌, ◌↔◌, ◌≤◌, ◌+◌, length, map, IfOk, IfSome, None, Some, string_bytes};
ghost use Rattle.std.specs.Io.KnownBytes.{IsAtEnd};
ghost use Rattle.vch_base.specs.Stream.{Rose};
ghost use Rattle.vch_replay.specs.Commands.{Reads, WordsRead, command_of};
ghost use Rattle.vch_replay.specs.Input.{limit, EachReadGave, GaveTooMuch, GaveAtMost};
ghost use Rattle.vch_replay.specs.Run.{Comes, IsGood, WritesAnswer, WritesPart, WritesRefusal, WritesSummary, WritesSummaryPart};
ghost use Rattle.vch_replay.specs.declared.command.Command.TheVariants as commands;

use crate::command::{Command, command_of};
use crate::input::{InputFault, read_all};
use crate::load::load_text;
use crate::outcome::Outcome;
use crate::{check, header, judging, play, recipe};
use std::alloc::Global;
use vch_base::{NoMemory, Sink, Source, write_all};

/// What a command that reads comes to. Its text, or its line, is made whole.
fn perform(alloc: Global, command: Command, input: &[u8]) -> Result<Outcome, NoMemory>
    requires reads { Reads command }
    requires short { length input.now ≤ limit }
    ensures { IfOk result (λ outcome. Comes command input.now outcome) }
{
    match command {
        Command::Check => check::answer(alloc, input),
        Command::Play => play::answer(alloc, input, None),
        Command::PlaySeed { seed } => play::answer(alloc, input, Some(seed)),
        Command::Recipe => recipe::answer(alloc, input),
        Command::Header => header::answer(alloc, input),
        Command::Certify => judging::answer(alloc, input),
        Command::Load { .. } => unreachable!(),
    }
}

/// The status of a run that is out of memory, and the one place where it is written.
fn out_of_memory(_cause: NoMemory) -> u8
    ensures { result ≡ 5 }
{
    5
}

/// A command that reads its input.
fn run_read<S: Source, K: Sink>(alloc: Global, command: Command, source: &mut S, sink: &mut K) -> u8
    requires reads { Reads command }
    ensures answered { result ≡ 0 → IfSome (S.left source.old) (λ input. WritesAnswer (Some command) input (K.written sink.old) (K.written sink.new)) }
    ensures ended { (result ≡ 0) ⊎ (result ≡ 2) ⊎ (result ≡ 4) → IsAtEnd (S.left source.new) }
    ensures some { result ≢ 1 }
    ensures refused { result ≡ 2 → IfSome (S.left source.old) (λ input. WritesRefusal (Some command) input (K.written sink.old) (K.written sink.new)) }
    ensures read_fault { result ≡ 3 → Rose (S.faults source.old) (S.faults source.new) }
    ensures write_fault { result ≡ 4 → Rose (K.faults sink.old) (K.faults sink.new) }
    ensures part { result ≡ 4 → IfSome (S.left source.old) (λ input. WritesPart (Some command) input (K.written sink.old) (K.written sink.new)) }
    ensures long { result ≡ 6 → GaveTooMuch (S.left source.old) (S.left source.new) }
    ensures enough { result ≢ 6 → GaveAtMost limit (S.left source.old) (S.left source.new) }
    ensures at_most { GaveAtMost (limit + 1) (S.left source.old) (S.left source.new) }
    ensures reads { S.reads source.new ≤ S.reads source.old + (limit + 1) }
    ensures each { EachReadGave (S.left source.old) (S.left source.new) (S.reads source.old) (S.reads source.new) }
    ensures silent { (result ≡ 3) ⊎ (result ≡ 5) ⊎ (result ≡ 6) → sink.new ≡ sink.old }
    ensures complete { IsGood (Some command) (S.left source.old) → (Rose (S.faults source.old) (S.faults source.new) → ⊥) → (Rose (K.faults sink.old) (K.faults sink.new) → ⊥) → (result ≡ 0) ⊎ (result ≡ 5) }
    ensures statuses { result ≤ 6 }
{
    let input = match read_all(alloc, source) {
        Ok(input) => input,
        Err(InputFault::Failed) => return 3,
        Err(InputFault::NoMemory { cause }) => return out_of_memory(cause),
        Err(InputFault::TooLong) => return 6,
    };
    match perform(alloc, command, input.as_slice()) {
        Ok(Outcome::Answered { text }) => match write_all(sink, text.as_slice()) {
            Ok(()) => 0,
            Err(_) => 4,
        },
        Ok(Outcome::Refused { line }) => match write_all(sink, line.as_slice()) {
            Ok(()) => 2,
            Err(_) => 4,
        },
        Err(cause) => out_of_memory(cause),
    }
}

/// `load`, which reads nothing.
fn run_load<K: Sink>(alloc: Global, n: u64, sink: &mut K) -> u8
    ensures loaded { result ≡ 0 → WritesSummary (Some (commands.Load n)) (K.written sink.old) (K.written sink.new) }
    ensures write_fault { result ≡ 4 → Rose (K.faults sink.old) (K.faults sink.new) }
    ensures part { result ≡ 4 → WritesSummaryPart (Some (commands.Load n)) (K.written sink.old) (K.written sink.new) }
    ensures silent { result ≡ 5 → sink.new ≡ sink.old }
    ensures statuses { (result ≡ 0) ⊎ (result ≡ 4) ⊎ (result ≡ 5) }
{
    let text = match load_text(alloc, n) {
        Ok(text) => text,
        Err(cause) => return out_of_memory(cause),
    };
    match write_all(sink, text.as_slice()) {
        Ok(()) => 0,
        Err(_) => 4,
    }
}

/// All that the program does, but for runs with workers. It always returns.
///
/// The words are `check`, `play`, `play` with a seed, `recipe`, `header`, `certify`, or `load` with a number. `load` reads nothing. Else the source
/// is read to its end, or until 4,194,305 bytes were given; each read asks for at least one byte, so at most 4,194,305 reads happen.
/// The text is made whole before the first write.
///
/// | status | when |
/// |---|---|
/// | 0 | done: the whole text was written |
/// | 1 | the words are none of the forms |
/// | 2 | the input is not in the grammar, or has a header that is refused; one line says why |
/// | 3 | the source failed |
/// | 4 | the sink failed; a prefix of the text or of the line was written |
/// | 5 | out of memory |
/// | 6 | the source gave more than 4,194,304 bytes |
pub fn run_plain<S: Source, K: Sink>(
    alloc: Global,
    words: &[String],
    source: &mut S,
    sink: &mut K,
) -> u8
    // The headline: the report of one legal and whole history of the scenario that was read, or the command's other text.
    ensures answered { WordsRead (command_of (map string_bytes words.now)) → result ≡ 0 → IfSome (S.left source.old) (λ input. WritesAnswer (command_of (map string_bytes words.now)) input (K.written sink.old) (K.written sink.new)) }
    ensures loaded { result ≡ 0 → WritesSummary (command_of (map string_bytes words.now)) (K.written sink.old) (K.written sink.new) }
    // The source was read to its end.
    ensures ended { WordsRead (command_of (map string_bytes words.now)) → (result ≡ 0) ⊎ (result ≡ 2) ⊎ (result ≡ 4) → IsAtEnd (S.left source.new) }

    ensures words { (result ≡ 1) ↔ (command_of (map string_bytes words.now) ≡ None) }
    ensures untouched { result ≡ 1 → (source.new ≡ source.old) × (sink.new ≡ sink.old) }
    ensures refused { result ≡ 2 → IfSome (S.left source.old) (λ input. WritesRefusal (command_of (map string_bytes words.now)) input (K.written sink.old) (K.written sink.new)) }
    ensures read_fault { result ≡ 3 → Rose (S.faults source.old) (S.faults source.new) }
    ensures write_fault { result ≡ 4 → Rose (K.faults sink.old) (K.faults sink.new) }
    ensures part { WordsRead (command_of (map string_bytes words.now)) → result ≡ 4 → IfSome (S.left source.old) (λ input. WritesPart (command_of (map string_bytes words.now)) input (K.written sink.old) (K.written sink.new)) }
    ensures loaded_part { result ≡ 4 → WritesSummaryPart (command_of (map string_bytes words.now)) (K.written sink.old) (K.written sink.new) }
    ensures unread { (WordsRead (command_of (map string_bytes words.now)) → ⊥) → source.new ≡ source.old }
    ensures long { result ≡ 6 → GaveTooMuch (S.left source.old) (S.left source.new) }
    ensures enough { result ≢ 6 → GaveAtMost limit (S.left source.old) (S.left source.new) }
    ensures at_most { GaveAtMost (limit + 1) (S.left source.old) (S.left source.new) }
    // No read comes after the end, and none asks for nothing.
    ensures reads { S.reads source.new ≤ S.reads source.old + (limit + 1) }
    ensures each { EachReadGave (S.left source.old) (S.left source.new) (S.reads source.old) (S.reads source.new) }
    // Nothing was written.
    ensures silent { (result ≡ 3) ⊎ (result ≡ 5) ⊎ (result ≡ 6) → sink.new ≡ sink.old }

    // Words that are a form, input in the grammar and no fault are answered, unless memory runs out.
    ensures complete { IsGood (command_of (map string_bytes words.now)) (S.left source.old) → (Rose (S.faults source.old) (S.faults source.new) → ⊥) → (Rose (K.faults sink.old) (K.faults sink.new) → ⊥) → (result ≡ 0) ⊎ (result ≡ 5) }
    ensures statuses { result ≤ 6 }
{
    let Some(command) = command_of(words) else {
        return 1;
    };
    match command {
        Command::Load { n } => run_load(alloc, n, sink),
        _ => run_read(alloc, command, source, sink),
    }
}

use crate::run::drill;
use crate::stream::Output;
use std::alloc::Global;
use std::sync::atomic::{AtomicU64, Ordering};
use std::test::Fail;
use vch_base::{Gate, Kind, MemSink, OpenGate, Sink, SteadySink};

/// Words, and what they must come to.
struct Case {
    words: &'static [&'static str],
    status: u8,
    output: &'static str,
}

const HUNDRED: &str = "made 100\nmakes 200\ndead 0\nreleased 8\nraced 0\nend\n";

const CASES: &[Case] = &[
    Case {
        words: &["made", "100"],
        status: 0,
        output: HUNDRED,
    },
    // Fewer rounds than slots: a slot without a count is not released.
    Case {
        words: &["made", "3"],
        status: 0,
        output: "made 3\nmakes 6\ndead 0\nreleased 3\nraced 0\nend\n",
    },
    Case {
        words: &["made", "1"],
        status: 0,
        output: "made 1\nmakes 2\ndead 0\nreleased 1\nraced 0\nend\n",
    },
    Case {
        words: &["made", "1000"],
        status: 0,
        output: "made 1000\nmakes 2000\ndead 0\nreleased 8\nraced 0\nend\n",
    },
    Case {
        words: &[],
        status: 1,
        output: "",
    },
    Case {
        words: &["made"],
        status: 1,
        output: "",
    },
    Case {
        words: &["made", "0"],
        status: 1,
        output: "",
    },
    Case {
        words: &["made", "1001"],
        status: 1,
        output: "",
    },
    Case {
        words: &["made", "03"],
        status: 1,
        output: "",
    },
    Case {
        words: &["made", "3", "3"],
        status: 1,
        output: "",
    },
    Case {
        words: &["Made", "3"],
        status: 1,
        output: "",
    },
];

fn words_of(alloc: Global, words: &[&str]) -> Result<Vec<String>, Fail> {
    let mut all = Vec::new(alloc);
    for word in words {
        all.push(String::from_str(alloc, word)?)?;
    }
    Ok(all)
}

#[test]
fn words_and_their_texts(rt: HostRuntime) -> Result<(), Fail> {
    let alloc = rt.alloc();
    for case in CASES {
        let words = words_of(alloc, case.words)?;
        let mut sink = SteadySink::new(alloc, 1000)?;
        let status = drill(&rt, alloc, words.as_slice(), &mut sink, &OpenGate);
        assert_eq!(rt; status, case.status);
        assert_eq!(rt; sink.written(), case.output.as_bytes());
    }
    Ok(())
}

/// The most looks of a wait.
const MOST_LOOKS: u64 = 100_000_000;

/// A gate at which each of two tasks waits, after its first make, until the other has made one.
#[derive(Drop)]
struct Meeting {
    first: AtomicU64,
    second: AtomicU64,
    given_up: AtomicU64,
    other_events: AtomicU64,
}

impl Meeting {
    fn new() -> Meeting {
        Meeting {
            first: AtomicU64::new(0),
            second: AtomicU64::new(0),
            given_up: AtomicU64::new(0),
            other_events: AtomicU64::new(0),
        }
    }

    /// Looks until the other task has passed, or for so many times.
    fn wait_for(&self, other: &AtomicU64) {
        for _look in 0..MOST_LOOKS {
            if other.load(Ordering::SeqCst) > 0 {
                return;
            }
        }
        self.given_up.fetch_add(1, Ordering::SeqCst);
    }
}

impl Gate for Meeting {
    fn pass(&self, task: u32, did: Kind, next: Option<Kind>) {
        let (mine, other) = match (task, did, next) {
            (1, Kind::Make, None) => (&self.first, &self.second),
            (2, Kind::Make, None) => (&self.second, &self.first),
            _ => {
                self.other_events.fetch_add(1, Ordering::SeqCst);
                return;
            }
        };
        if mine.fetch_add(1, Ordering::SeqCst) == 0 {
            self.wait_for(other);
        }
    }
}

#[test]
fn both_seats_make_at_the_same_time(rt: HostRuntime) -> Result<(), Fail> {
    let alloc = rt.alloc();
    let words = words_of(alloc, &["made", "100"])?;
    let mut sink = SteadySink::new(alloc, 1000)?;
    let gate = Meeting::new();
    assert_eq!(rt; drill(&rt, alloc, words.as_slice(), &mut sink, &gate), 0);
    assert_eq!(rt; sink.written(), HUNDRED.as_bytes());
    assert_eq!(rt; gate.first.load(Ordering::SeqCst), 100);
    assert_eq!(rt; gate.second.load(Ordering::SeqCst), 100);
    assert_eq!(rt; gate.given_up.load(Ordering::SeqCst), 0);
    assert_eq!(rt; gate.other_events.load(Ordering::SeqCst), 0);
    Ok(())
}

#[test]
fn a_write_that_fails_leaves_a_prefix(rt: HostRuntime) -> Result<(), Fail> {
    let alloc = rt.alloc();
    let words = words_of(alloc, &["made", "3"])?;
    for failing in 1..4u64 {
        let mut calls = Vec::new(alloc);
        calls.push(failing)?;
        let mut sink = MemSink::new(alloc, calls, 10, 1000)?;
        let status = drill(&rt, alloc, words.as_slice(), &mut sink, &OpenGate);
        assert_eq!(rt; status, 4);
        let written = b"made 3\nmakes 6\ndead 0";
        assert_eq!(rt; sink.written(), &written[..10 * (failing as usize - 1)]);
    }
    Ok(())
}

#[test]
fn output_hands_its_writer_each_piece(rt: HostRuntime) -> Result<(), Fail> {
    let mut written = Vec::new(rt.alloc());
    let mut sink = Output::new(&mut written);
    assert_eq!(rt; sink.write(b"made"), Ok(4));
    assert_eq!(rt; sink.write(b" 1\n"), Ok(3));
    assert_eq!(rt; written.as_slice(), b"made 1\n".as_slice());
    Ok(())
}

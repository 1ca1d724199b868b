ghost use Rattle.std.specs.Prelude.{◌≡◌, ◌≤◌, ◌<◌, IfSome};

use super::*;
use std::alloc::Global;
use std::test::Fail;
use std::thread;
use std::thread::Threads;
use vch_base::NoMemory;

/// What a case does with slot 0.
#[derive(Clone, Copy, Debug)]
enum Step {
    AMakes,
    BMakes,
    AReleases,
    BIsJoinedIntoA,
}

/// What it returns.
#[derive(Clone, Copy, Debug, PartialEq, Eq)]
enum Answer {
    Made { own: u64 },
    Dead,
    Released,
    Raced { now: u64 },
    Nothing,
}

/// Two seats of a row of one slot, which both have room left.
struct Case {
    shows: &'static str,
    steps: &'static [(Step, Answer)],
}

const CASES: &[Case] = &[
    Case {
        shows: "a release is raced until its seat has every count of the slot, and then the slot is over",
        steps: &[
            (Step::AMakes, Answer::Made { own: 1 }),
            (Step::BMakes, Answer::Made { own: 1 }),
            (Step::AReleases, Answer::Raced { now: 2 }),
            (Step::BIsJoinedIntoA, Answer::Nothing),
            (Step::AReleases, Answer::Released),
            (Step::AMakes, Answer::Dead),
        ],
    },
    Case {
        shows: "a slot of which others have no count is released while they are there, and is over for them too",
        steps: &[
            (Step::AMakes, Answer::Made { own: 1 }),
            (Step::AReleases, Answer::Released),
            (Step::BMakes, Answer::Dead),
        ],
    },
    Case {
        shows: "counts that came by a join are counts of the seat",
        steps: &[
            (Step::BMakes, Answer::Made { own: 1 }),
            (Step::BMakes, Answer::Made { own: 2 }),
            (Step::BIsJoinedIntoA, Answer::Nothing),
            (Step::AMakes, Answer::Made { own: 3 }),
            (Step::AReleases, Answer::Released),
        ],
    },
];

/// Seat a, and seat b until it is joined into a.
#[derive(Drop)]
struct Seats {
    a: Seat,
    b: Option<Seat>,
}

fn make_once(row: &MadeRow, seat: &mut Seat) -> Answer
    requires row { seat.old.row ≡ row.now }
    requires slot { 0 < row.now.slots }
    ensures row { seat.new.row ≡ row.now }
{
    if seat.room() == 0 {
        return Answer::Nothing;
    }
    match row.make(seat, 0) {
        Make::Made { own } => Answer::Made { own },
        Make::Dead => Answer::Dead,
    }
}

fn release_once(row: &MadeRow, seat: &mut Seat) -> Answer
    requires row { seat.old.row ≡ row.now }
    requires slot { 0 < row.now.slots }
    ensures row { seat.new.row ≡ row.now }
{
    if seat.own(0) == 0 {
        return Answer::Nothing;
    }
    match row.release(seat, 0) {
        Rel::Released => Answer::Released,
        Rel::Raced { now } => Answer::Raced { now },
    }
}

fn take_step(row: &MadeRow, seats: &mut Seats, step: Step) -> Answer
    requires a { seats.old.a.row ≡ row.now }
    requires b { IfSome seats.old.b (λ b. b.row ≡ row.now) }
    requires slot { 0 < row.now.slots }
    ensures a { seats.new.a.row ≡ row.now }
    ensures b { IfSome seats.new.b (λ b. b.row ≡ row.now) }
{
    match step {
        Step::AMakes => make_once(row, &mut seats.a),
        Step::BMakes => match &mut seats.b {
            Some(b) => make_once(row, b),
            None => Answer::Nothing,
        },
        Step::AReleases => release_once(row, &mut seats.a),
        Step::BIsJoinedIntoA => {
            if let Some(b) = seats.b.take() {
                row.join(&mut seats.a, b);
            }
            Answer::Nothing
        }
    }
}

/// What steps return, one after the other.
fn take_steps(
    alloc: Global,
    row: &MadeRow,
    mut seats: Seats,
    steps: &[(Step, Answer)],
) -> Result<Vec<Answer>, Fail>
    requires a { seats.a.row ≡ row.now }
    requires b { IfSome seats.b (λ b. b.row ≡ row.now) }
    requires slot { 0 < row.now.slots }
{
    let mut answers = Vec::new(alloc);
    for (step, _) in steps {
        answers.push(take_step(row, &mut seats, *step))?;
    }
    Ok(answers)
}

/// What the steps of a case return.
fn play(alloc: Global, case: &Case) -> Result<Vec<Answer>, Fail> {
    let (row, mut a) = MadeRow::open(alloc, 1, 10)?;
    let b = row.split(&mut a, 5)?;
    take_steps(alloc, &row, Seats { a, b: Some(b) }, case.steps)
}

#[test]
fn a_slot_is_released_only_with_every_count_of_it(rt: HostRuntime) -> Result<(), Fail> {
    for case in CASES {
        let answers = play(rt.alloc(), case)?;
        assert_eq!(rt; answers.len(), case.steps.len(), "{}", case.shows);
        for (answer, (_, wanted)) in answers.iter().zip(case.steps) {
            assert_eq!(rt; *answer, *wanted, "{}", case.shows);
        }
    }
    Ok(())
}

/// Makes so many counts of slot 0.
fn count_up(row: &MadeRow, mut seat: Seat, times: u64) -> Seat
    requires row { seat.row ≡ row.now }
    requires slot { 0 < row.now.slots }
    requires room { times ≤ seat.room }
    ensures { result.row ≡ row.now }
{
    for _round in 0..times {
        row.make(&mut seat, 0);
    }
    seat
}

/// Two threads share a row, each with a seat of its own; then one seat has all counts, and releases the slot.
fn counted_by_two<R: Threads + Sync>(rt: &R, alloc: Global) -> Result<(u64, Answer), NoMemory> {
    let (made, mut a) = MadeRow::open(alloc, 1, 2000)?;
    let b = made.split(&mut a, 1000)?;
    let row = &made;
    let (mut a, b) = thread::join(
        rt,
        move ||
            requires { (a.row ≡ row.now) × (0 < row.now.slots) × (1000 ≤ a.room) }
            ensures { result.row ≡ row.entry.now }
        { count_up(row, a, 1000) },
        move ||
            requires { (b.row ≡ row.now) × (0 < row.now.slots) × (1000 ≤ b.room) }
            ensures { result.row ≡ row.entry.now }
        { count_up(row, b, 1000) },
    );
    row.join(&mut a, b);
    let own = a.own(0);
    let answer = release_once(row, &mut a);
    Ok((own, answer))
}

#[test]
fn two_threads_count_in_one_word(rt: HostRuntime) -> Result<(), Fail> {
    let (own, answer) = counted_by_two(&rt, rt.alloc())?;
    assert_eq!(rt; own, 2000);
    assert_eq!(rt; answer, Answer::Released);
    Ok(())
}

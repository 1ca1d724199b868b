ghost use Rattle.std.specs.Prelude.{IfOk};
ghost use Rattle.vch_model.specs.Scenarios.{IsLimited};

use super::*;
use std::alloc::Global;
use std::process::Abort;
use vch_base::NoMemory;
use vch_generate::{generate, generated_is_writable};
use vch_model::{Scenario, TotalList};

/// The scenario of 8,192 calls that is drawn from 1.
fn large(alloc: Global) -> Result<Scenario, NoMemory>
    ensures { IfOk result (λ sc. IsLimited sc) }
{
    generated_is_writable();
    generate(alloc, 1)
}

fn in_turn(alloc: Global) -> Result<Played, NoMemory> {
    let scenario = large(alloc)?;
    play_plain(alloc, &scenario)
}

fn by_seed(alloc: Global, seed: u64) -> Result<Played, NoMemory> {
    let scenario = large(alloc)?;
    play_seed(alloc, &scenario, seed)
}

/// What all ledgers have together.
fn ledgers(totals: &TotalList) -> u128 {
    let mut sum = 0u128;
    for i in 0..totals.len() {
        sum = sum.saturating_add(totals.at(i).ledger);
    }
    sum
}

#[test]
fn in_turn_each_charge_of_0_to_1023_is_credited_and_all_is_given_back(rt: HostRuntime) {
    let Ok(played) = in_turn(rt.alloc()) else {
        panic!(rt; "no memory");
    };
    assert_eq!(rt; ledgers(&played.totals), 523776);
    assert_eq!(rt; (played.vouchers, played.values), (0, 1));
    assert_eq!(rt; played.totals.len(), 8);
}

#[test]
fn a_seed_plays_each_call_too(rt: HostRuntime) {
    let Ok(played) = by_seed(rt.alloc(), 7) else {
        panic!(rt; "no memory");
    };
    assert!(rt; played.history.len() > 8192);
    assert_eq!(rt; played.totals.len(), 8);
}

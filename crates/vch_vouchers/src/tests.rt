use super::*;
use std::alloc::Global;
use vch_base::NoMemory;
use vch_table::Indices;

/// A voucher with this index at key 7 alone.
fn voucher(index: u32) -> Indices {
    let mut voucher = Indices::new();
    voucher.set(7, Some(index));
    voucher
}

/// A voucher that is named twice by task 1, sent to task 2 and named there, and goes with the last of them.
fn sent_and_named(alloc: Global) -> Result<bool, NoMemory> {
    let mut vouchers = Vouchers::new(alloc, &[4, 2])?;
    let first = vouchers.name(1, &voucher(3))?;
    let again = vouchers.name(1, &voucher(3))?;
    let sent = vouchers.send(2, 1, 70, &voucher(3))?;
    let named = vouchers.name(2, &voucher(3))?;
    let counted = vouchers.count() == 1;
    let kept = vouchers.drop_name(1, first.name).is_none()
        && vouchers.remove_name(1, first.name).is_none();
    let taken = vouchers
        .take_first(2)
        .is_some_and(|taken| taken.id == 70 && taken.orphan.is_none());
    let gone = vouchers.drop_name(2, named.name).is_some() && vouchers.count() == 0;
    Ok(
        !first.was_known
            && again.was_known
            && again.name == first.name
            && sent
            && counted
            && kept
            && taken
            && gone,
    )
}

#[test]
fn a_voucher_goes_with_its_last_name_or_message(rt: HostRuntime) {
    assert!(rt; sent_and_named(rt.alloc()) == Ok(true));
}

/// The lowest of three names, before and after it goes, and what is left of a removed one.
fn lowest_names(alloc: Global) -> Result<bool, NoMemory> {
    let mut vouchers = Vouchers::new(alloc, &[1])?;
    vouchers.name(1, &voucher(3))?;
    vouchers.name(1, &voucher(4))?;
    vouchers.name(1, &voucher(5))?;
    let lowest = vouchers.first_name(1) == Some(1);
    let removed = vouchers.remove_name(1, 1).is_some();
    let next = vouchers.first_name(1) == Some(2);
    let found = vouchers.voucher(1, 3).is_some() && vouchers.voucher(1, 1).is_none();
    Ok(lowest && removed && next && found && vouchers.count() == 2)
}

#[test]
fn the_lowest_name_is_found_and_removed(rt: HostRuntime) {
    assert!(rt; lowest_names(rt.alloc()) == Ok(true));
}

/// Two messages fill a queue and are received in their order; the second has no voucher.
fn filled_queue(alloc: Global) -> Result<bool, NoMemory> {
    let mut vouchers = Vouchers::new(alloc, &[2])?;
    vouchers.send(1, 1, 70, &voucher(3))?;
    let room = !vouchers.is_full(1);
    vouchers.send_bare(1, 1, 71);
    let full = vouchers.is_full(1);
    let first = vouchers
        .first(1)
        .is_some_and(|message| message.id == 70 && message.voucher.is_some());
    let orphan = vouchers
        .take_first(1)
        .is_some_and(|taken| taken.id == 70 && taken.orphan.is_some());
    let bare = vouchers
        .take_first(1)
        .is_some_and(|taken| taken.id == 71 && taken.orphan.is_none());
    Ok(room && full && first && orphan && bare && vouchers.take_first(1).is_none())
}

#[test]
fn a_full_queue_keeps_its_messages_in_order(rt: HostRuntime) {
    assert!(rt; filled_queue(rt.alloc()) == Ok(true));
}
